// The text of a picture.

ghost use Rattle.std.specs.Prelude.{◌≡◌, ◌++◌, IfOk, OnOk};
ghost use Rattle.std.specs.List.{flat_map};
ghost use Rattle.lrc_svg.specs.Texts.{attribute_text, attributes_text, byte_text, close_text, content_text, document_text};
ghost use Rattle.lrc_svg.specs.Texts.{escaped, open_text};

use crate::element::{Attribute, Content, Document};
use crate::name::Tag;
use std::alloc::{AllocError, Global};

// Adds a byte of a text or of a value.
fn push_byte(text: &mut Vec<u8>, byte: u8) -> Result<(), AllocError>
    ensures { OnOk result (text.new.items ≡ text.old.items ++ byte_text byte) }
{
    match byte {
        b'&' => text.extend_from_slice(b"&amp;"),
        b'<' => text.extend_from_slice(b"&lt;"),
        b'>' => text.extend_from_slice(b"&gt;"),
        b'"' => text.extend_from_slice(b"&quot;"),
        b' '..=b'~' => Ok(text.push(byte)?),
        _ => text.extend_from_slice(b"?"),
    }
}

// Adds a text or a value.
fn push_escaped(text: &mut Vec<u8>, words: &[u8]) -> Result<(), AllocError>
    ensures { OnOk result (text.new.items ≡ text.old.items ++ escaped words.now) }
{
    for byte in words {
        push_byte(text, *byte)?;
    }
    Ok(())
}

fn push_attribute(text: &mut Vec<u8>, attribute: &Attribute) -> Result<(), AllocError>
    ensures { OnOk result (text.new.items ≡ text.old.items ++ attribute_text attribute.now) }
{
    text.extend_from_slice(b" ")?;
    text.extend_from_slice(attribute.key.word())?;
    text.extend_from_slice(b"=\"")?;
    push_escaped(text, attribute.value.as_slice())?;
    text.extend_from_slice(b"\"")
}

fn push_attributes(text: &mut Vec<u8>, attributes: &[Attribute]) -> Result<(), AllocError>
    ensures { OnOk result (text.new.items ≡ text.old.items ++ attributes_text attributes.now) }
{
    for attribute in attributes {
        push_attribute(text, attribute)?;
    }
    Ok(())
}

// Adds what an element begins with.
fn push_open(text: &mut Vec<u8>, tag: Tag, attributes: &[Attribute]) -> Result<(), AllocError>
    ensures { OnOk result (text.new.items ≡ text.old.items ++ open_text tag attributes.now) }
{
    text.extend_from_slice(b"<")?;
    text.extend_from_slice(tag.word())?;
    push_attributes(text, attributes)?;
    text.extend_from_slice(b">")
}

// Adds what an element ends with.
fn push_close(text: &mut Vec<u8>, tag: Tag) -> Result<(), AllocError>
    ensures { OnOk result (text.new.items ≡ text.old.items ++ close_text tag) }
{
    text.extend_from_slice(b"</")?;
    text.extend_from_slice(tag.word())?;
    text.extend_from_slice(b">")
}

#[cycle(push)]
#[tactic(auto, using(crate::proofs::Rows::element_is, crate::proofs::Rows::text_is))]
fn push_content(text: &mut Vec<u8>, content: &Content) -> Result<(), AllocError>
    ensures { OnOk result (text.new.items ≡ text.old.items ++ content_text content.now) }
{
    match content {
        Content::Text(words) => push_escaped(text, words.as_slice()),
        Content::Element(tag, attributes, inside) => {
            push_open(text, *tag, attributes.as_slice())?;
            push_contents(text, inside.as_slice())?;
            push_close(text, *tag)
        }
    }
}

#[cycle(push)]
fn push_contents(text: &mut Vec<u8>, contents: &[Content]) -> Result<(), AllocError>
    ensures { OnOk result (text.new.items ≡ text.old.items ++ flat_map content_text contents.now) }
{
    for content in contents {
        push_content(text, content)?;
    }
    Ok(())
}

/// Returns the text of a picture. The recursion is as deep as the picture's elements nest.
pub fn document_part(alloc: Global, document: &Document) -> Result<Vec<u8>, AllocError>
    ensures { IfOk result (λ part. part.items ≡ document_text document.now) }
{
    let mut text = Vec::new(alloc);
    push_open(&mut text, Tag::Picture, document.attributes.as_slice())?;
    push_contents(&mut text, document.inside.as_slice())?;
    push_close(&mut text, Tag::Picture)?;
    text.extend_from_slice(b"\n")?;
    Ok(text)
}
