// How an expression with a pointer lies in its row: docs/STORE.md's sorts. Each sort is written here, but for 0, Missing
// without a pointer, which alloc_missing in exprs.rt writes. Sorts are read back in decode.rt of rows; in between a sort
// is a number, since rows are bytes that anybody may write.
#![tactic(auto, unfolding(layout::specs::Exprs::expr_of, rows::specs::Decoded::expr_with, rows::specs::Decoded::pattern_with, rows::specs::Decoded::ValidExpr, crate::specs::Codes::sort_for, crate::specs::Codes::literal_sort, crate::specs::Codes::lambda_sort, crate::specs::Codes::select_sort, crate::specs::Codes::ranged, module::specs::Literals::literal_of, module::specs::Ids::expr_of, module::specs::Ids::name_of))]

ghost use Rattle.std.specs.Prelude.{◌≡◌, ◌≤◌, ◌*◌, ◌+◌};
ghost use Rattle.rows.specs.Decoded.{ValidExpr};
ghost use Rattle.store.specs.Codes.{Says};
ghost use Rattle.module.specs.Literals.{Valid};

use module::{Expr, ExprId, Literal, NameId, Pattern, bits_of, value_of};
use rows::Row;

// A number in two words, the higher first: joined of rows the other way round.
fn halves(sort: u32, n: u64) -> Row
    ensures { (result.sort ≡ sort) × (result.a * 4294967296 + result.b ≡ n) }
{
    let high = (n >> 32) as u32;
    let low = (n % (1 << 32)) as u32;
    Row {
        sort,
        a: high,
        b: low,
        c: 0,
    }
}

fn literal_row(l: Literal) -> Row
    requires { Valid l }
    ensures { Says result (Expr.Literal l) }
{
    match l {
        Literal::Float(x) => halves(4, bits_of(x)),
        Literal::Integer(n) => halves(5, value_of(n)),
        Literal::Text(t) => Row {
            sort: 6,
            a: t.0,
            b: 0,
            c: 0,
        },
        Literal::Path(t) => Row {
            sort: 7,
            a: t.0,
            b: 0,
            c: 0,
        },
        Literal::Uri => Row {
            sort: 8,
            a: 0,
            b: 0,
            c: 0,
        },
    }
}

// Without a pattern, with one, with one that ends in an ellipsis; each without and with a parameter.
fn lambda_row(x: Option<NameId>, p: Pattern, body: ExprId) -> Row
    ensures { Says result (Expr.Lambda x p body) }
{
    match x {
        None => match p {
            Pattern::Absent => Row {
                sort: 9,
                a: body.0,
                b: 0,
                c: 0,
            },
            Pattern::Closed => Row {
                sort: 11,
                a: body.0,
                b: 0,
                c: 0,
            },
            Pattern::Ellipsis => Row {
                sort: 13,
                a: body.0,
                b: 0,
                c: 0,
            },
        },
        Some(n) => match p {
            Pattern::Absent => Row {
                sort: 10,
                a: body.0,
                b: n.0,
                c: 0,
            },
            Pattern::Closed => Row {
                sort: 12,
                a: body.0,
                b: n.0,
                c: 0,
            },
            Pattern::Ellipsis => Row {
                sort: 14,
                a: body.0,
                b: n.0,
                c: 0,
            },
        },
    }
}

fn select_row(set: ExprId, default: Option<ExprId>) -> Row
    ensures { Says result (Expr.Select set default) }
{
    match default {
        None => Row {
            sort: 22,
            a: set.0,
            b: 0,
            c: 0,
        },
        Some(d) => Row {
            sort: 23,
            a: set.0,
            b: d.0,
            c: 0,
        },
    }
}

fn set_row(is_rec: bool) -> Row
    ensures { Says result (Expr.AttrSet is_rec) }
{
    if is_rec {
        return Row {
            sort: 19,
            a: 0,
            b: 0,
            c: 0,
        };
    }
    Row {
        sort: 18,
        a: 0,
        b: 0,
        c: 0,
    }
}

// The row of an expression with a pointer. It is no `From`, which may not ask for a condition, as ValidExpr is.
pub fn row_of(e: Expr) -> Row
    requires { ValidExpr e }
    ensures { Says result e }
{
    match e {
        Expr::Missing => Row {
            sort: 1,
            a: 0,
            b: 0,
            c: 0,
        },
        Expr::Apply(f, x) => Row {
            sort: 2,
            a: f.0,
            b: x.0,
            c: 0,
        },
        Expr::IfThenElse(i, t, o) => Row {
            sort: 3,
            a: i.0,
            b: t.0,
            c: o.0,
        },
        Expr::Literal(l) => literal_row(l),
        Expr::Lambda(x, p, body) => lambda_row(x, p, body),
        Expr::LetIn(body) => Row {
            sort: 15,
            a: body.0,
            b: 0,
            c: 0,
        },
        Expr::List => Row {
            sort: 16,
            a: 0,
            b: 0,
            c: 0,
        },
        Expr::BinOp(l, r, op) => Row {
            sort: 17,
            a: l.0,
            b: r.0,
            c: op,
        },
        Expr::AttrSet(is_rec) => set_row(is_rec),
        Expr::UnaryOp(op, x) => Row {
            sort: 20,
            a: op,
            b: x.0,
            c: 0,
        },
        Expr::Reference(t) => Row {
            sort: 21,
            a: t.0,
            b: 0,
            c: 0,
        },
        Expr::Select(set, default) => select_row(set, default),
        Expr::HasAttr(set) => Row {
            sort: 24,
            a: set.0,
            b: 0,
            c: 0,
        },
        Expr::With(set, body) => Row {
            sort: 25,
            a: set.0,
            b: body.0,
            c: 0,
        },
        Expr::Assert(condition, body) => Row {
            sort: 26,
            a: condition.0,
            b: body.0,
            c: 0,
        },
        Expr::StringInterpolation => Row {
            sort: 27,
            a: 0,
            b: 0,
            c: 0,
        },
        Expr::PathInterpolation => Row {
            sort: 28,
            a: 0,
            b: 0,
            c: 0,
        },
    }
}
