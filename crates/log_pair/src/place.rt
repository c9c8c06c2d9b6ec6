// Whose log it is.

/// Whose log it is: the role is 1 for the index, 2 for incoming posts and 3 for a shelf; then the
/// number of the sack, counted from 0, and how many sacks the store has. The index has sack 0.
#[derive(Clone, Copy, Debug, PartialEq, Eq)]
pub struct Place {
    pub role: u8,
    pub sack: u16,
    pub sacks: u16,
}
