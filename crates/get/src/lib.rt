// A reader of bins from a list, one after another, and of the QP marker.
#![tactic(auto)]

ghost use Rattle.std.specs.Prelude.{◌≡◌};
ghost use Rattle.h265.specs.Parse.{bin_at, marker_at};
ghost use Rattle.get.specs.As.{answer_of};

use refusal::{Refusal, Refused};

// A list of bins, and the place of the next one to read.
#[derive(Drop)]
pub struct BinReader<'a> {
    pub list: &'a [u8],
    pub at: usize,
}

impl<'a> BinReader<'a> {
    // One bin of class `class`.
    #[tactic(auto, unfolding(h265::specs::Parse::bin_at))]
    pub fn bin(&mut self, class: u8) -> Result<bool, Refused>
        ensures value { answer_of result self.new.at ≡ bin_at class self.old.list.now self.old.at }
        ensures list { self.new.list ≡ self.old.list }
    {
        let Some(&byte) = self.list.get(self.at) else {
            return Err(Refusal::BinsEnd.at(self.at));
        };
        let one = match u32::from(byte).wrapping_sub(u32::from(class) * 2) {
            0 => false,
            1 => true,
            _ => return Err(Refusal::BinClass.at(self.at)),
        };
        self.at += 1;
        Ok(one)
    }

    // The QP marker.
    #[tactic(auto, unfolding(h265::specs::Parse::marker_at))]
    pub fn marker(&mut self) -> Result<(), Refused>
        ensures value { answer_of result self.new.at ≡ marker_at self.old.list.now self.old.at }
        ensures list { self.new.list ≡ self.old.list }
    {
        match self.list.get(self.at) {
            Some(22) => {
                self.at += 1;
                Ok(())
            }
            Some(_) => Err(Refusal::BinClass.at(self.at)),
            None => Err(Refusal::BinsEnd.at(self.at)),
        }
    }
}
