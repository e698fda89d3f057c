//! How many tables there are.
use gold::Profile;

/// The tables' profile, and how many instances of each air there are, by the air's number.
#[derive(Clone, Copy, Debug, PartialEq, Eq)]
pub struct Sizes {
    pub profile: Profile,
    pub counts: [u32; 7],
}
