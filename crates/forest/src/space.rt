/// What a store may still take: so many trees, child entries and text bytes.
#[derive(Clone, Copy, PartialEq, Eq, Debug)]
pub struct Space {
    pub trees: u32,
    pub children: u32,
    pub bytes: u32,
}
