//! Which member of a language a key names.
ghost use Rattle.std.specs.Prelude.{◌≡◌};
ghost use Rattle.tokei_table_json.specs.Members.{member_of};

/// A member whose value is a list of texts.
#[derive(Clone, Copy)]
pub(crate) enum TextList {
    Extensions,
    LineComment,
    Env,
    Filenames,
    Shebangs,
    PathSuffixes,
    Mime,
    ImportantSyntax,
}

/// A member whose value is a list of pairs of texts.
#[derive(Clone, Copy)]
pub(crate) enum PairList {
    MultiLineComments,
    Quotes,
    VerbatimQuotes,
    DocQuotes,
    NestedComments,
}

/// A member whose value is `true` or `false`.
#[derive(Clone, Copy)]
pub(crate) enum TruthValue {
    Nested,
    Literate,
    Blank,
}

/// A member of a language, by what its value is; `Other` is one that is passed over.
#[derive(Clone, Copy)]
pub(crate) enum Member {
    Texts(TextList),
    Pairs(PairList),
    Truth(TruthValue),
    Name,
    Kind,
    Contexts,
    Other,
}

/// The member that the key names. The more languages have a member, the sooner it is looked for.
pub(crate) fn member_of(key: &str) -> Member
    ensures { result ≡ member_of key.now }
{
    match key {
        "extensions" => Member::Texts(TextList::Extensions),
        "line_comment" => Member::Texts(TextList::LineComment),
        "multi_line_comments" => Member::Pairs(PairList::MultiLineComments),
        "quotes" => Member::Pairs(PairList::Quotes),
        "name" => Member::Name,
        "verbatim_quotes" => Member::Pairs(PairList::VerbatimQuotes),
        "nested" => Member::Truth(TruthValue::Nested),
        "env" => Member::Texts(TextList::Env),
        "filenames" => Member::Texts(TextList::Filenames),
        "shebangs" => Member::Texts(TextList::Shebangs),
        "doc_quotes" => Member::Pairs(PairList::DocQuotes),
        "path_suffixes" => Member::Texts(TextList::PathSuffixes),
        "literate" => Member::Truth(TruthValue::Literate),
        "mime" => Member::Texts(TextList::Mime),
        "blank" => Member::Truth(TruthValue::Blank),
        "kind" => Member::Kind,
        "contexts" => Member::Contexts,
        "important_syntax" => Member::Texts(TextList::ImportantSyntax),
        "nested_comments" => Member::Pairs(PairList::NestedComments),
        _ => Member::Other,
    }
}
