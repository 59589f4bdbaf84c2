// What texts depend on: names, category codes, the escape character and the newline character.
ghost use Rattle.std.specs.Prelude.{◌≡◌};
ghost use Rattle.equivalents.specs.Parameters.{style_in};
ghost use Rattle.token_show.specs.Views.{names_style, IsNamesView, style_of, IsView};

use input_state::Input;
use name_table::NameTable;
use token_lists::Lists;
use token_show::{NamesView, View};

/// The place of `\escapechar` among the integer parameters.
pub(crate) const ESCAPE_CHARACTER: u8 = 45;

/// The place of `\newlinechar`.
pub(crate) const NEW_LINE_CHARACTER: u8 = 49;

/// The view of these names, with category codes and the values of `\escapechar` and `\newlinechar`.
pub(crate) fn names_view<'a>(
    names: &'a NameTable,
    categories: &'a [u8; 256],
    escape: i32,
    newline: i32,
) -> NamesView<'a>
    ensures style { names_style result ≡ record { escape = escape; newline = newline; categories = categories.now; names = names.now.names } }
    ensures names { IsNamesView result }
{
    let (hash, pool) = names.parts();
    NamesView {
        hash,
        pool,
        categories,
        escape,
        newline,
    }
}

/// The view of these lists and names, by what holds now.
pub(crate) fn view_of<'a>(lists: &'a Lists, input: &'a Input, names: &'a NameTable) -> View<'a>
    ensures style { style_of result ≡ style_in input.now.groups.now names.now.names }
    ensures names { IsView result }
    ensures same_lists { result.lists.now ≡ lists.now }
{
    let escape = input.integer(ESCAPE_CHARACTER);
    let newline = input.integer(NEW_LINE_CHARACTER);
    View {
        lists,
        names: names_view(names, input.categories(), escape, newline),
    }
}
