use relations::Declarations;
use tokens::Tokens;

// What is left to read, and what is declared so far.
#[derive(Drop)]
pub struct Reader<'a> {
    pub tokens: Tokens<'a>,
    pub declared: Declarations,
}

// The same, lent by a caller.
#[derive(Drop)]
pub(crate) struct Lent<'a, 'b> {
    pub tokens: &'b mut Tokens<'a>,
    pub declared: &'b mut Declarations,
}
