// The numbers of terms and sets of a table.

#[derive(Clone, Copy)]
pub(crate) struct Shape {
    pub terms: u8,
    pub sets: u8,
}
