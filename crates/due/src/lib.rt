// What the writer and the reader of entries and levels share: the depth of the chroma components, and where a level is sent.
#![tactic(auto)]

ghost use Rattle.std.specs.Prelude.{◌≡◌, ◌≤◌, eqb};
ghost use Rattle.base.specs.Pick.{pick};
ghost use Rattle.due.specs.Due.{due_at};

use scan::scan_pos;

// The depth of the second and third components: 0 in format 0.
pub fn chroma_depth(format: u8, depth: u8) -> u32
    requires { depth ≤ 16 }
    ensures { (result ≡ pick (eqb format 0) 0 depth) × (result ≤ 16) }
{
    if format == 0 { 0 } else { u32::from(depth) }
}

// Whether component k has a level at cell i: chroma where a chroma sample stands.
#[tactic(auto, unfolding(crate::specs::Due::due_at, syntax::specs::Block::chroma_due))]
pub fn due_at(k: u8, format: u8, size: usize, turned: bool, i: usize) -> bool
    requires { 1 ≤ size }
    ensures { result ≡ due_at format size turned k i }
{
    if k == 0 {
        return true;
    }
    match format {
        0 => false,
        1 => {
            let p = scan_pos(i, size);
            p.col % 2 == 0 && p.row % 2 == 0
        }
        2 => {
            let p = scan_pos(i, size);
            let along = if turned { p.row } else { p.col };
            along % 2 == 0
        }
        _ => true,
    }
}
