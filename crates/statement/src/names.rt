// The two sorts of names. Element name 3 and set name 3 have nothing in common, so each sort has its type.
#[derive(Clone, Copy)]
pub struct ElementName(pub u8);

#[derive(Clone, Copy)]
pub struct SetName(pub u8);
