// Representatives of a block's colours; a colour is a packed number.
#![tactic(auto)]

ghost use Rattle.std.specs.Prelude.{◌≡◌, false, ℕ, ◌<◌, ◌≤◌, IfSome, leb, length, get_or, position};
ghost use Rattle.quant.specs.Quant.{gap};
ghost use Rattle.reps.specs.Reps.{within, hit_of, place_in, reps, listed, Joined};

// At most 64 colours; 0 behind them.
// Stays an array with a count: no heap.
#[derive(Clone, Copy)]
pub struct Reps {
    pub count: usize,
    pub list: [u64; 64],
}

// Whether two numbers are apart by at most tol.
fn close(a: u64, b: u64, tol: u64) -> bool
    ensures { result ≡ leb (gap a b) tol }
{
    a.abs_diff(b) <= tol
}

// Whether two colours are within tolerance in every component.
fn is_within(a: u64, b: u64, tol: u64) -> bool
    ensures { result ≡ within tol a b }
{
    close(a % 65536, b % 65536, tol)
        && close(a / 65536 % 65536, b / 65536 % 65536, tol)
        && close(a / 4294967296 % 65536, b / 4294967296 % 65536, tol)
}

// Whether some of the colours may be within tolerance of e, at most 7: no is certain.
fn near(list: &[u64], e: u64, tol: u64) -> bool
    requires { tol ≤ 7 }
    ensures { result ≡ false → (j : ℕ) → j < length list.now → within tol e (get_or list.now j 0) ≡ false }
{
    let base = e % 281474976710656 + tol * 4295032833 + 281474976710656;
    let mut any = false;
    for x in list {
        let z = base - *x % 281474976710656;
        any = any | ((z % 65536 < 16) & (z / 65536 % 65536 < 16) & (z / 4294967296 % 65536 < 16));
    }
    any
}

// The place of the first colour that is within tolerance of e, tried one by one.
fn scan(list: &[u64], e: u64, tol: u64) -> Option<usize>
    ensures { result ≡ position (λ x. within tol e x) list.now }
{
    list.iter().position(|x| is_within(e, *x, tol))
}

// The place of the first colour that is within tolerance of e.
pub fn hit(list: &[u64], e: u64, tol: u64) -> Option<usize>
    ensures place { place_in list.now result ≡ hit_of tol e list.now }
    ensures below { IfSome result (λ r. r < length list.now) }
{
    if tol <= 7 && !near(list, e, tol) {
        return None;
    }
    scan(list, e, tol)
}

// One more colour: a representative where none is within tolerance of it and there is room.
fn join(list: &mut [u64; 64], n: usize, limit: usize, c: u64, tol: u64) -> usize
    requires { (n ≤ limit) × (limit ≤ 64) }
    ensures { Joined tol limit c n result list.old list.new }
{
    if n == limit || hit(&list[..n], c, tol).is_some() {
        return n;
    }
    list[n] = c;
    n + 1
}

// The representatives of the colours, at most limit of them.
pub fn representatives(colours: &[u64], limit: usize, tol: u64) -> Reps
    requires { limit ≤ 64 }
    ensures { result ≡ listed (reps tol limit colours.now (length colours.now)) }
{
    let mut list = [0; 64];
    let mut count = 0;
    for c in colours {
        count = join(&mut list, count, limit, *c, tol);
    }
    Reps { count, list }
}
