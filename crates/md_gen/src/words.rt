// The words and the expressions that are drawn from.
ghost use Rattle.std.specs.Prelude.{◌≡◌};
ghost use Rattle.md_gen.specs.Files.{word};
ghost use Rattle.md_gen.specs.Scripts.{expression};

/// The word of a number; from 8 on it is empty.
#[tactic(auto, unfolding(crate::specs::Files::word))]
pub(crate) fn word(number: usize) -> &'static str
    ensures { result.now ≡ word number }
{
    match number {
        0 => "red",
        1 => "blue",
        2 => "tax",
        3 => "plan",
        4 => "note",
        5 => "draft",
        6 => "final",
        7 => "budget",
        _ => "",
    }
}

/// The expression that a client asks by; from 8 on it is empty.
#[tactic(auto, unfolding(crate::specs::Scripts::expression))]
pub(crate) fn expression(client: usize) -> &'static str
    ensures { result.now ≡ expression client }
{
    match client {
        0 => "kMDItemFSName == \"*.txt\"",
        1 => "kMDItemStarRating >= 3",
        2 => "kMDItemKeywords == \"red\"c || kMDItemTitle == \"red\"c",
        3 => "* == \"*budget*\"cd",
        4 => "!(kMDItemContentType == \"public.json\")",
        5 => "InRange(kMDItemFSSize, 8, 20)",
        6 => "md_csv_rows == 1 && kMDItemKeywords != \"tax\"",
        7 => "kMDItemFSContentChangeDate >= $time.today",
        _ => "",
    }
}
