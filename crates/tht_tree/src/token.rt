// Tokens.

/// The kind of a token: a name, a number, a symbol, or a reserved word.
#[derive(Clone, Copy, Debug, PartialEq, Eq)]
pub enum TokenKind {
    Name,
    Num,
    /// `:=`
    Assign,
    /// `<-`
    LeftArrow,
    /// `->`
    Arrow,
    /// `=>`
    FatArrow,
    /// `<=`
    LessEqual,
    /// `::`
    Link,
    /// `++`
    Join,
    /// `(`
    LParen,
    /// `)`
    RParen,
    /// `{`
    LBrace,
    /// `}`
    RBrace,
    /// `[`
    LBracket,
    /// `]`
    RBracket,
    /// `,`
    Comma,
    /// `;`
    Semicolon,
    /// `:`
    Colon,
    /// `.`
    Dot,
    /// `@`
    AtSign,
    /// `*`
    Star,
    /// `+`
    Plus,
    /// `-`
    Minus,
    /// `=`
    Equal,
    /// `<`
    Less,
    Tht,
    Root,
    Invariant,
    Shared,
    Pred,
    Lemma,
    Txn,
    Proc,
    Main,
    On,
    Nil,
    Cons,
    Zero,
    Next,
    Nat,
    Bool,
    Loc,
    Unit,
    Seq,
    True,
    False,
    Null,
    Not,
    And,
    Or,
    Imp,
    Len,
    Emp,
    Exists,
    Either,
    Read,
    Write,
    Alloc,
    Free,
    Call,
    Do,
    Atomic,
    Par,
    Publish,
    Retract,
    Have,
    Open,
    Unfold,
    Fold,
    Rewrite,
    Use,
    Ret,
    If,
    Else,
    Case,
    Dead,
    At,
    As,
    By,
    To,
    Hyp,
    Refl,
    Calc,
    Todo,
    Sym,
    Both,
    Subst,
    Pair,
    Fst,
    Snd,
    Inl,
    Inr,
    Cases,
    Fun,
    App,
    Neg,
    Absurd,
    Em,
    Lin,
    Monus,
    Head,
    Tail,
    Nocons,
    Apart,
    Nonnull,
    Ex,
    Left,
    Right,
}
