// docs/RULES.md, "Kinds": the 33 kinds of the sheet's nodes. docs/SHEET.md has the table, by whose names they go here.
ghost use Rattle.std.specs.Prelude.{◌≡◌};
ghost use Rattle.module.specs.SyntaxKinds.{number_of_syntax, syntax_of_number};

// A variant's number is its kind's number in a sheet.
#[derive(Clone, Copy, PartialEq, Eq)]
pub enum SyntaxKind {
    Apply = 1,
    IfElse = 2,
    Select = 3,
    With = 4,
    HasAttr = 5,
    Str = 6,
    Path = 7,
    Float = 8,
    Integer = 9,
    Uri = 10,
    Lambda = 11,
    LetIn = 12,
    List = 13,
    BinOp = 14,
    Paren = 15,
    AttrSet = 16,
    UnaryOp = 17,
    Ident = 18,
    Assert = 19,
    Error = 20,
    Root = 21,
    LegacyLet = 22,
    Attrpath = 23,
    Dynamic = 24,
    AttrpathValue = 25,
    Inherit = 26,
    InheritFrom = 27,
    IdentParam = 28,
    Pattern = 29,
    PatBind = 30,
    PatEntry = 31,
    LiteralPart = 32,
    Interpolation = 33,
}

impl SyntaxKind {
    // A method and no `From`: the name says which number it is.
    pub fn number(self) -> u32
        ensures { result ≡ number_of_syntax self }
    {
        self as u32
    }

    // The kind that has the number. No kind has 0 or a number above 33. No `TryFrom`: of such a number there is nothing
    // else to tell, and callers take a None or say in their own words what is wrong.
    #[tactic(auto, unfolding(crate::specs::SyntaxKinds::syntax_of_number, crate::specs::SyntaxKinds::syntax_kinds))]
    pub fn of(number: u32) -> Option<SyntaxKind>
        ensures { result ≡ syntax_of_number number }
    {
        let kind = match number {
            1 => SyntaxKind::Apply,
            2 => SyntaxKind::IfElse,
            3 => SyntaxKind::Select,
            4 => SyntaxKind::With,
            5 => SyntaxKind::HasAttr,
            6 => SyntaxKind::Str,
            7 => SyntaxKind::Path,
            8 => SyntaxKind::Float,
            9 => SyntaxKind::Integer,
            10 => SyntaxKind::Uri,
            11 => SyntaxKind::Lambda,
            12 => SyntaxKind::LetIn,
            13 => SyntaxKind::List,
            14 => SyntaxKind::BinOp,
            15 => SyntaxKind::Paren,
            16 => SyntaxKind::AttrSet,
            17 => SyntaxKind::UnaryOp,
            18 => SyntaxKind::Ident,
            19 => SyntaxKind::Assert,
            20 => SyntaxKind::Error,
            21 => SyntaxKind::Root,
            22 => SyntaxKind::LegacyLet,
            23 => SyntaxKind::Attrpath,
            24 => SyntaxKind::Dynamic,
            25 => SyntaxKind::AttrpathValue,
            26 => SyntaxKind::Inherit,
            27 => SyntaxKind::InheritFrom,
            28 => SyntaxKind::IdentParam,
            29 => SyntaxKind::Pattern,
            30 => SyntaxKind::PatBind,
            31 => SyntaxKind::PatEntry,
            32 => SyntaxKind::LiteralPart,
            33 => SyntaxKind::Interpolation,
            _ => return None,
        };
        Some(kind)
    }
}
