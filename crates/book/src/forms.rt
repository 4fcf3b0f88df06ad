// The form of a book: the tokens themselves in its lines, or slips.
#[derive(Clone, Copy)]
pub enum Form {
    Plain,
    Slip,
}
