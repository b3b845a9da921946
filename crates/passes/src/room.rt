// The slices lent, where each has room for any plan: `Lent` is made by callers, of whom that fact would ask more. `Drop` alone is derived, as there.
ghost use Rattle.std.specs.Prelude.{◌≤◌, length};

#[derive(Drop)]
pub(crate) struct Room<'a> {
    pub(crate) times: &'a mut [u8],
    pub(crate) chain_bounds: &'a mut [u8],
    pub(crate) chain_directions: &'a mut [u8],
    ghost times_long: { 32768 ≤ length times.now },
    ghost bounds_long: { 8192 ≤ length chain_bounds.now },
    ghost directions_long: { 4096 ≤ length chain_directions.now },
}
