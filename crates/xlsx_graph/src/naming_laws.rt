//! What holds of all that formulas name.
ghost use Rattle.std.specs.Prelude.{◌≡◌, ℕ, false, List};
ghost use Rattle.book_names.specs.Book.{Book, BookName};
ghost use Rattle.xlsx_graph.specs.Naming.{named_in};
ghost use Rattle.xlsx_graph.specs.NamingLaws.{says_name, with_names};
ghost use Rattle.xlsx_graph.specs.declared.named.Standing.{Standing};

/// For a formula that says no defined name no text of one is read, and the same is found of it with
/// other defined names in place of the workbook's, where it says none of these either.
pub fn formulas_without_names_ask_for_none()
    ensures unread { (book : Book) (cell : Standing) (text : List ℕ)
        → says_name book cell text ≡ false → (named_in book cell text).read ≡ 0 }
    ensures same { (book : Book) (names : List BookName) (cell : Standing) (text : List ℕ)
        → says_name book cell text ≡ false → says_name (with_names book names) cell text ≡ false
        → named_in (with_names book names) cell text ≡ named_in book cell text }
{}
