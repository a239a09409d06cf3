use sk_fit::End;

/// What a chain says of each observation, by its place. A place past the end of a list is not dropped, or has no end.
#[derive(Drop)]
pub struct Marks {
    /// How many observations are old.
    pub first_new: usize,
    pub dropped: Vec<bool>,
    /// The end of the segment whose last covered observation this is.
    pub ends: Vec<Option<End>>,
}
