// What a front was made with.

/// What a front was made with: how many sacks its store has, and the number of the store, where it was created then.
#[derive(Clone, Copy, Debug, PartialEq, Eq)]
pub struct Made {
    pub sacks: u16,
    pub number: Option<u32>,
}
