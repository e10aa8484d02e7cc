//! Script, style and template elements of HTML.
ghost use Rattle.std.specs.Prelude.{◌≡◌, ◌<◌, length};
ghost use Rattle.tokei_embedding.specs.Tags.{token_of, closer_of, attribute_of};

use crate::spans::Span;

/// The elements whose contents are in a language of their own.
#[derive(Clone, Copy)]
pub enum Tag {
    /// `<script`, with a `type`.
    Script,
    /// `<style`, with a `lang`.
    Style,
    /// `<template`, with a `lang`.
    Template,
}

/// An element.
#[derive(Clone, Copy)]
pub struct TagAt<'a> {
    /// The attribute's value, as it stands.
    pub value: Option<&'a [u8]>,
    /// What stands between the opening and the closing tag.
    pub contents: &'a [u8],
    /// The bytes from the opening's first to before the closing tag.
    pub size: usize,
}

/// An opening tag: all of it, and the value in it. Places count from the front of the part.
#[derive(Clone, Copy)]
pub struct Opening {
    pub whole: Span,
    pub value: Option<Span>,
}

/// What an opening tag begins with.
pub(crate) fn token_of(tag: Tag) -> &'static [u8]
    ensures { result.now ≡ token_of tag }
{
    match tag {
        Tag::Script => b"<script",
        Tag::Style => b"<style",
        Tag::Template => b"<template",
    }
}

/// The closing tag.
pub fn closer_of(tag: Tag) -> &'static [u8]
    ensures { result.now ≡ closer_of tag }
{
    match tag {
        Tag::Script => b"</script>",
        Tag::Style => b"</style>",
        Tag::Template => b"</template>",
    }
}

/// What stands before the value that names the language.
pub(crate) fn attribute_of(tag: Tag) -> &'static [u8]
    ensures value { result.now ≡ attribute_of tag }
    ensures some { 0 < length result.now }
{
    match tag {
        Tag::Script => b"type=\"",
        Tag::Style => b"lang=\"",
        Tag::Template => b"lang=\"",
    }
}
