//! The tables of reserved words and symbols.
ghost use Rattle.std.specs.Prelude.{◌≡◌};
ghost use Rattle.tht_tree.specs.Splitting as spec;
ghost use Rattle.tht_lex.specs.Words.{rows};

use tht_tree::token::TokenKind;

/// The reserved words.
pub const RESERVED: [(&[u8], TokenKind); 83] = [
    (b"tht", TokenKind::Tht),
    (b"root", TokenKind::Root),
    (b"invariant", TokenKind::Invariant),
    (b"shared", TokenKind::Shared),
    (b"pred", TokenKind::Pred),
    (b"lemma", TokenKind::Lemma),
    (b"txn", TokenKind::Txn),
    (b"proc", TokenKind::Proc),
    (b"main", TokenKind::Main),
    (b"on", TokenKind::On),
    (b"nil", TokenKind::Nil),
    (b"cons", TokenKind::Cons),
    (b"zero", TokenKind::Zero),
    (b"next", TokenKind::Next),
    (b"nat", TokenKind::Nat),
    (b"bool", TokenKind::Bool),
    (b"loc", TokenKind::Loc),
    (b"unit", TokenKind::Unit),
    (b"seq", TokenKind::Seq),
    (b"true", TokenKind::True),
    (b"false", TokenKind::False),
    (b"null", TokenKind::Null),
    (b"not", TokenKind::Not),
    (b"and", TokenKind::And),
    (b"or", TokenKind::Or),
    (b"imp", TokenKind::Imp),
    (b"len", TokenKind::Len),
    (b"emp", TokenKind::Emp),
    (b"exists", TokenKind::Exists),
    (b"either", TokenKind::Either),
    (b"read", TokenKind::Read),
    (b"write", TokenKind::Write),
    (b"alloc", TokenKind::Alloc),
    (b"free", TokenKind::Free),
    (b"call", TokenKind::Call),
    (b"do", TokenKind::Do),
    (b"atomic", TokenKind::Atomic),
    (b"par", TokenKind::Par),
    (b"publish", TokenKind::Publish),
    (b"retract", TokenKind::Retract),
    (b"have", TokenKind::Have),
    (b"open", TokenKind::Open),
    (b"unfold", TokenKind::Unfold),
    (b"fold", TokenKind::Fold),
    (b"rewrite", TokenKind::Rewrite),
    (b"use", TokenKind::Use),
    (b"ret", TokenKind::Ret),
    (b"if", TokenKind::If),
    (b"else", TokenKind::Else),
    (b"case", TokenKind::Case),
    (b"dead", TokenKind::Dead),
    (b"at", TokenKind::At),
    (b"as", TokenKind::As),
    (b"by", TokenKind::By),
    (b"to", TokenKind::To),
    (b"hyp", TokenKind::Hyp),
    (b"refl", TokenKind::Refl),
    (b"calc", TokenKind::Calc),
    (b"todo", TokenKind::Todo),
    (b"sym", TokenKind::Sym),
    (b"both", TokenKind::Both),
    (b"subst", TokenKind::Subst),
    (b"pair", TokenKind::Pair),
    (b"fst", TokenKind::Fst),
    (b"snd", TokenKind::Snd),
    (b"inl", TokenKind::Inl),
    (b"inr", TokenKind::Inr),
    (b"cases", TokenKind::Cases),
    (b"fun", TokenKind::Fun),
    (b"app", TokenKind::App),
    (b"neg", TokenKind::Neg),
    (b"absurd", TokenKind::Absurd),
    (b"em", TokenKind::Em),
    (b"lin", TokenKind::Lin),
    (b"monus", TokenKind::Monus),
    (b"head", TokenKind::Head),
    (b"tail", TokenKind::Tail),
    (b"nocons", TokenKind::Nocons),
    (b"apart", TokenKind::Apart),
    (b"nonnull", TokenKind::Nonnull),
    (b"ex", TokenKind::Ex),
    (b"left", TokenKind::Left),
    (b"right", TokenKind::Right),
];

/// The symbols of two bytes.
pub const PAIRS: [(&[u8], TokenKind); 7] = [
    (b":=", TokenKind::Assign),
    (b"<-", TokenKind::LeftArrow),
    (b"->", TokenKind::Arrow),
    (b"=>", TokenKind::FatArrow),
    (b"<=", TokenKind::LessEqual),
    (b"::", TokenKind::Link),
    (b"++", TokenKind::Join),
];

/// The symbols of one byte.
pub const SINGLES: [(&[u8], TokenKind); 16] = [
    (b"(", TokenKind::LParen),
    (b")", TokenKind::RParen),
    (b"{", TokenKind::LBrace),
    (b"}", TokenKind::RBrace),
    (b"[", TokenKind::LBracket),
    (b"]", TokenKind::RBracket),
    (b",", TokenKind::Comma),
    (b";", TokenKind::Semicolon),
    (b":", TokenKind::Colon),
    (b".", TokenKind::Dot),
    (b"@", TokenKind::AtSign),
    (b"*", TokenKind::Star),
    (b"+", TokenKind::Plus),
    (b"-", TokenKind::Minus),
    (b"=", TokenKind::Equal),
    (b"<", TokenKind::Less),
];

/// The kind of the first row with this text.
fn kind_in(mut table: &[(&[u8], TokenKind)], text: &[u8]) -> Option<TokenKind>
    ensures { result ≡ spec.kind_in (rows table.entry.now) text.now }
{
    while let [row, rest @ ..] = table {
        if row.0 == text {
            return Some(row.1);
        }
        table = rest;
    }
    None
}

/// The kind of a word: a reserved one, or a name.
#[tactic(auto, unfolding(tht_tree::specs::Splitting::reserved))]
pub fn word_kind(text: &[u8]) -> TokenKind
    ensures { result ≡ spec.word_kind text.now }
{
    kind_in(&RESERVED, text).unwrap_or(TokenKind::Name)
}

/// The symbol of two bytes with this text.
#[tactic(auto, unfolding(tht_tree::specs::Splitting::two_byte_symbols))]
pub fn pair(text: &[u8]) -> Option<TokenKind>
    ensures { result ≡ spec.kind_in spec.two_byte_symbols text.now }
{
    kind_in(&PAIRS, text)
}

/// The symbol of one byte with this text.
#[tactic(auto, unfolding(tht_tree::specs::Splitting::one_byte_symbols))]
pub fn single(text: &[u8]) -> Option<TokenKind>
    ensures { result ≡ spec.kind_in spec.one_byte_symbols text.now }
{
    kind_in(&SINGLES, text)
}
