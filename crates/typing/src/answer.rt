/// What an accepted check answers: the row of the query's type, how many type rows were made, and whether typing gave a type to an error row.
#[derive(Clone, Copy, PartialEq, Eq, Debug)]
pub struct QueryType {
    pub row: u32,
    pub made: u32,
    pub error: bool,
}
