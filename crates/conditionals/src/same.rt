// The comparison of `\ifx`. *The TeXbook*, chapter 20; *TeX: The Program*, part 28 ("Test if two tokens match").
ghost use Rattle.std.specs.Prelude.{◌≡◌};
ghost use Rattle.conditionals.specs.Same as same;

use tex_defs::Meaning;

/// Whether two tokens are alike to `\ifx`, by what they mean, and by whether their lists are the same, which counts of two macros alone.
pub fn same_meaning(a: Meaning<()>, b: Meaning<()>, same_list: bool) -> bool
    ensures { result ≡ same.same_meaning a b same_list }
{
    match (a, b) {
        (Meaning::Undefined, Meaning::Undefined) => true,
        (Meaning::RelaxMarked, Meaning::RelaxMarked) => true,
        (Meaning::Char { cat: c, code: k }, Meaning::Char { cat: d, code: l }) => c == d && k == l,
        (Meaning::CharGiven(m), Meaning::CharGiven(n)) => m == n,
        (Meaning::MathGiven(m), Meaning::MathGiven(n)) => m == n,
        (Meaning::Register { kind: j, no: m }, Meaning::Register { kind: k, no: n }) => {
            j == k && m == n
        }
        (Meaning::Prim(m), Meaning::Prim(n)) => m == n,
        (
            Meaning::Macro {
                long: l,
                outer: o,
                list: (),
            },
            Meaning::Macro {
                long: m,
                outer: p,
                list: (),
            },
        ) => l == m && o == p && same_list,
        _ => false,
    }
}
