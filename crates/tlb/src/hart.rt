// Harts by their numbers.
ghost use Rattle.std.specs.Prelude.{◌≡◌, ◌<◌, IfSome, is_some, nat_lt};

/// One of the eight harts.
#[derive(Clone, Copy, PartialEq, Eq, Debug)]
pub struct HartId {
    pub number: usize,
    ghost low: { number < 8 },
}

impl HartId {
    /// The hart of a number, if there is one.
    pub fn new(number: usize) -> Option<HartId>
        ensures exists { is_some result ≡ nat_lt number 8 }
        ensures number { IfSome result (λ hart. hart.number ≡ number) }
    {
        if number < 8 {
            Some(HartId { number })
        } else {
            None
        }
    }
}
