// The slices that a caller lends for what is found: the times, and the numbers and directions of a chain, as the C interface has them. `Drop` alone is derived, as
// `&mut` slices can't be copied or compared.
ghost use Rattle.std.specs.Prelude.{◌≡◌};
ghost use Rattle.schedule.specs.Lent.{long_enough};
ghost use Rattle.passes.specs.Lending.{lent_of};

#[derive(Drop)]
pub struct Lent<'a> {
    pub times: &'a mut [u8],
    pub chain_bounds: &'a mut [u8],
    pub chain_directions: &'a mut [u8],
}

impl<'a> Lent<'a> {
    // Whether each has room for any plan.
    #[tactic(auto, unfolding(schedule::specs::Lent::long_enough))]
    pub fn is_long_enough(&self) -> bool
        ensures { result ≡ long_enough (lent_of self.now) }
    {
        32_768 <= self.times.len()
            && 8_192 <= self.chain_bounds.len()
            && 4_096 <= self.chain_directions.len()
    }
}
