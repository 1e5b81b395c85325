/// For which upper rows of a column its lower rows have splinters.
#[derive(Clone, Copy, PartialEq, Eq)]
pub enum Strategy {
    /// For each: up to the last splinter for the greatest size of an upper row (W. Pugh, The Omega test, 1991).
    Full,
    /// Only for those whose pair with the lower row isn't exact beside the rows: where the dark shadow of a pair loses no point
    /// of the real one, no splinter is needed.
    Economical,
}
