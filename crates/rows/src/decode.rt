// How an expression and an item are read from their rows: codes.rt of the crate store and item_rows.rt the other way
// round. Every row gives something, whatever it holds.
ghost use Rattle.std.specs.Prelude.{◌≡◌};
ghost use Rattle.rows.specs.Decoded.{Reads, ReadsItem};
ghost use Rattle.layout.specs.Exprs as rows;

use crate::row::{ItemRow, Row};
use module::{
    BindingValue, Expr, ExprId, INFINITY_BITS, Item, LARGEST_INTEGER, Literal, NameId, Pattern,
    TextId, float_of, integer_of,
};

// Two words as one number, the higher first.
#[tactic(auto, unfolding(layout::specs::Exprs::wide))]
pub fn joined(high: u32, low: u32) -> u64
    ensures { result ≡ rows.wide high low }
{
    (u64::from(high) << 32) + u64::from(low)
}

// Bits above those of infinity are no float that a sheet can have. The literals of a node (keys/literals.rt) are held
// below the same bounds; there a number above is no literal, here it is a Missing.
#[tactic(auto, using(crate::proofs::ReadLaws::float_unread))]
fn float_expr(row: Row) -> Expr
    requires { row.sort ≡ 4 }
    ensures { Reads row result }
{
    let bits = joined(row.a, row.b);
    if bits <= INFINITY_BITS {
        Expr::Literal(Literal::Float(float_of(bits)))
    } else {
        Expr::Missing
    }
}

#[tactic(auto, using(crate::proofs::ReadLaws::integer_unread))]
fn integer_expr(row: Row) -> Expr
    requires { row.sort ≡ 5 }
    ensures { Reads row result }
{
    let value = joined(row.a, row.b);
    if value <= LARGEST_INTEGER {
        Expr::Literal(Literal::Integer(integer_of(value)))
    } else {
        Expr::Missing
    }
}

// The expression that a row is of, but for its items. Its sort is a number up to here, since rows are bytes that
// anybody may write; here alone it becomes an enum.
impl From<Row> for Expr {
    ghost from_gives = { λ row e. Reads row e };

    #[tactic(auto, using(crate::proofs::ReadLaws::missing_read, crate::proofs::ReadLaws::last_read), unfolding(layout::specs::Exprs::expr_of, crate::specs::Decoded::expr_with, crate::specs::Decoded::ValidExpr, crate::specs::Decoded::pattern_with, module::specs::Literals::literal_of, module::specs::Literals::Valid, module::specs::Ids::expr_of, module::specs::Ids::name_of))]
    fn from(row: Row) -> Expr {
        let sort = row.sort;
        let x = Some(NameId(row.b));
        let body = ExprId(row.a);
        match sort {
            0 | 1 => Expr::Missing,
            2 => Expr::Apply(ExprId(row.a), ExprId(row.b)),
            3 => Expr::IfThenElse(ExprId(row.a), ExprId(row.b), ExprId(row.c)),
            4 => float_expr(row),
            5 => integer_expr(row),
            6 => Expr::Literal(Literal::Text(TextId(row.a))),
            7 => Expr::Literal(Literal::Path(TextId(row.a))),
            8 => Expr::Literal(Literal::Uri),
            9 => Expr::Lambda(None, Pattern::Absent, body),
            10 => Expr::Lambda(x, Pattern::Absent, body),
            11 => Expr::Lambda(None, Pattern::Closed, body),
            12 => Expr::Lambda(x, Pattern::Closed, body),
            13 => Expr::Lambda(None, Pattern::Ellipsis, body),
            14 => Expr::Lambda(x, Pattern::Ellipsis, body),
            15 => Expr::LetIn(body),
            16 => Expr::List,
            17 => Expr::BinOp(ExprId(row.a), ExprId(row.b), row.c),
            18 => Expr::AttrSet(false),
            19 => Expr::AttrSet(true),
            20 => Expr::UnaryOp(row.a, ExprId(row.b)),
            21 => Expr::Reference(TextId(row.a)),
            22 => Expr::Select(ExprId(row.a), None),
            23 => Expr::Select(ExprId(row.a), Some(ExprId(row.b))),
            24 => Expr::HasAttr(ExprId(row.a)),
            25 => Expr::With(ExprId(row.a), ExprId(row.b)),
            26 => Expr::Assert(ExprId(row.a), ExprId(row.b)),
            27 => Expr::StringInterpolation,
            _ => Expr::PathInterpolation,
        }
    }
}

// An item's tag is such a number too.
impl From<ItemRow> for Item {
    ghost from_gives = { λ row item. ReadsItem row item };

    #[tactic(auto, using(crate::proofs::ReadLaws::last_item_read), unfolding(layout::specs::Exprs::item_of, crate::specs::Decoded::item_with, module::specs::Ids::binding_of, module::specs::Ids::expr_of, module::specs::Ids::name_of))]
    fn from(row: ItemRow) -> Item {
        let tag = row.tag;
        let x = NameId(row.a);
        let e = ExprId(row.b);
        match tag {
            0 => Item::Child(ExprId(row.a)),
            1 => Item::Text(TextId(row.a)),
            2 => Item::Field(None, None),
            3 => Item::Field(Some(x), None),
            4 => Item::Field(None, Some(e)),
            5 => Item::Field(Some(x), Some(e)),
            6 => Item::Static(x, BindingValue::Expr(e)),
            7 => Item::Static(x, BindingValue::Inherit(e)),
            8 => Item::Static(x, BindingValue::InheritFrom(e)),
            _ => Item::Dynamic(ExprId(row.a), e),
        }
    }
}
