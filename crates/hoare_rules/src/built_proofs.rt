// Which proofs and gives are built.
ghost use Rattle.std.specs.Prelude.{◌≡◌, map};
ghost use Rattle.std.specs.List.{list_all};
ghost use Rattle.tht_logic.specs.Built.{proof as built_proof, give as built_give};
ghost use Rattle.hoare_rules.specs.BuiltParts.{proof_built, kind_built, entry_built, give_built, give_kind_built};

use self::ProofKind as Kind;
use sqlite_items::{Boxed, Items};
use tht_tree::give::{Give, GiveKind};
use tht_tree::proof::{LinEntry, Proof, ProofKind};

// ---- proofs

#[tactic(auto, using(crate::proofs::BuiltParts::proof_is))]
pub(crate) fn is_built_proof(proof: &Proof) -> bool
    ensures { result ≡ built_proof proof.now }
{
    proof_is_built(proof)
}

#[cycle(built)]
fn proof_is_built(proof: &Proof) -> bool
    ensures { result ≡ proof_built proof.now }
{
    kind_is_built(&proof.kind)
}

#[cycle(built)]
fn part(proof: &Boxed<Proof>) -> bool
    ensures { result ≡ proof_built proof.now }
{
    proof_is_built(proof.get())
}

#[cycle(built)]
fn kind_is_built(kind: &ProofKind) -> bool
    ensures { result ≡ kind_built kind.now }
{
    match kind {
        Kind::Recast(_, q) => part(q),
        Kind::Sym(q) => part(q),
        Kind::Both(q, r) => part(q) && part(r),
        Kind::Subst(_, _, _, _, _, q, r) => part(q) && part(r),
        Kind::Pair(q, r) => part(q) && part(r),
        Kind::Fst(_, q) => part(q),
        Kind::Snd(_, q) => part(q),
        Kind::Inl(q) => part(q),
        Kind::Inr(q) => part(q),
        Kind::Cases(_, q, _, r, _, u) => part(q) && part(r) && part(u),
        Kind::Fun(_, q) => part(q),
        Kind::App(_, q, r) => part(q) && part(r),
        Kind::Neg(_, q, r) => part(q) && part(r),
        Kind::Absurd(q) => part(q),
        Kind::Em(_, _, q, _, r) => part(q) && part(r),
        Kind::Lin(_, entries) => entries_are_built(entries),
        Kind::Monus(q) => part(q),
        Kind::Head(_, _, q) => part(q),
        Kind::Tail(_, _, q) => part(q),
        Kind::Lemma(..) => false,
        _ => true,
    }
}

#[cycle(built)]
fn entries_are_built(entries: &Items<LinEntry>) -> bool
    ensures { result ≡ list_all (λ e. e) (map entry_built entries.now) }
{
    for entry in entries.as_slice() {
        if !entry_is_built(entry) {
            return false;
        }
    }
    true
}

#[cycle(built)]
fn entry_is_built(entry: &LinEntry) -> bool
    ensures { result ≡ entry_built entry.now }
{
    part(&entry.proof)
}

// ---- gives

#[tactic(auto, using(crate::proofs::BuiltParts::give_is))]
pub(crate) fn is_built_give(give: &Give) -> bool
    ensures { result ≡ built_give give.now }
{
    give_is_built(give)
}

#[cycle(built_give)]
fn give_is_built(give: &Give) -> bool
    ensures { result ≡ give_built give.now }
{
    give_kind_is_built(&give.kind)
}

#[cycle(built_give)]
fn give_part(give: &Boxed<Give>) -> bool
    ensures { result ≡ give_built give.now }
{
    give_is_built(give.get())
}

#[cycle(built_give)]
fn give_kind_is_built(kind: &GiveKind) -> bool
    ensures { result ≡ give_kind_built kind.now }
{
    match kind {
        GiveKind::Fact(proof) => is_built_proof(proof),
        GiveKind::Star(x, y) => give_part(x) && give_part(y),
        GiveKind::Ex(_, x) => give_part(x),
        GiveKind::Left(x) => give_part(x),
        GiveKind::Right(x) => give_part(x),
        GiveKind::Fold(x) => give_part(x),
        _ => true,
    }
}
