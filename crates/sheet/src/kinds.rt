// The rules of the 33 kinds for flags and texts. A number that is no kind has the rules of a kind
// without flag and text.
ghost use Rattle.std.specs.Prelude.{◌≡◌};
ghost use Rattle.spec.specs.Kinds.{kind_of};
ghost use Rattle.module.specs.SyntaxKinds.{number_of_syntax};
ghost use Rattle.sheet.specs.Rules.{rule_of};

use module::SyntaxKind;

// What a text may be; `Float` and `Named` where the flag is 1, else such a text is empty.
#[derive(Clone, Copy)]
pub enum TextRule {
    NoText,
    AnyText,
    Digits,
    Float,
    Named,
}

// The highest flag of a kind.
#[tactic(auto, unfolding(spec::specs::Kinds::kind_of, spec::specs::Kinds::kinds, module::specs::SyntaxKinds::number_of_syntax))]
pub(crate) fn flags_of(kind: SyntaxKind) -> u32
    ensures { result ≡ (kind_of (number_of_syntax kind)).flags }
{
    match kind {
        SyntaxKind::Float | SyntaxKind::AttrSet | SyntaxKind::Ident | SyntaxKind::Pattern => 1,
        SyntaxKind::BinOp => 15,
        SyntaxKind::UnaryOp => 2,
        _ => 0,
    }
}

#[tactic(auto, unfolding(spec::specs::Kinds::kind_of, spec::specs::Kinds::kinds, module::specs::SyntaxKinds::number_of_syntax))]
pub(crate) fn text_rule_of(kind: SyntaxKind) -> TextRule
    ensures { rule_of result ≡ (kind_of (number_of_syntax kind)).text }
{
    match kind {
        SyntaxKind::Path | SyntaxKind::LiteralPart => TextRule::AnyText,
        SyntaxKind::Float => TextRule::Float,
        SyntaxKind::Integer => TextRule::Digits,
        SyntaxKind::Ident => TextRule::Named,
        _ => TextRule::NoText,
    }
}

// The same by the number of a kind. It promises something for every number, and to take a `SyntaxKind` would ask more of
// callers.
pub fn flags(kind: u32) -> u32
    ensures { result ≡ (kind_of kind).flags }
{
    match SyntaxKind::of(kind) {
        Some(kind) => flags_of(kind),
        None => 0,
    }
}

// By number for the same reason: a number that is no kind has its rule too.
pub fn text_rule(kind: u32) -> TextRule
    ensures { rule_of result ≡ (kind_of kind).text }
{
    match SyntaxKind::of(kind) {
        Some(kind) => text_rule_of(kind),
        None => TextRule::NoText,
    }
}
