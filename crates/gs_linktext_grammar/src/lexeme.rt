use gs_chars::Text;

/// A lexeme of a linkset as text.
#[derive(Drop)]
pub enum Lexeme {
    /// `,`
    Comma,
    /// `;`
    Semicolon,
    /// `=`
    Equals,
    /// A token.
    Word(Text),
    /// The bytes between `<` and `>`.
    Target(Text),
    /// A quoted string, without its quotes and its backslashes.
    Quoted(Text),
}
