//! The text below a picture.
ghost use Rattle.std.specs.Prelude.{◌≡◌, ◌++◌, ◌≤◌, IfOk, OnOk, encode_utf8, string_bytes};
ghost use Rattle.diagrams.specs.Pictures.{escaped, caption};

use std::alloc::{AllocError, Global};

#[tactic(auto, using(crate::proofs::EscapeLemmas::escaped_other))]
fn push_escaped(text: &mut String, character: char) -> Result<(), AllocError>
    ensures { OnOk result (string_bytes text.new ≡ string_bytes text.old ++ escaped (encode_utf8 character)) }
{
    match character {
        '&' => text.push_str("&amp;"),
        '<' => text.push_str("&lt;"),
        '>' => text.push_str("&gt;"),
        _ => text.push(character),
    }
}

/// A text as it stands in XML.
pub(crate) fn escaped(alloc: Global, words: &str) -> Result<String, AllocError>
    ensures { IfOk result (λ text. string_bytes text ≡ escaped words.now) }
{
    let mut text = String::new(alloc);
    for character in words.chars() {
        push_escaped(&mut text, character)?;
    }
    Ok(text)
}

/// The line below a board of this width: two texts that stand in XML as they are.
pub(crate) fn caption(
    alloc: Global,
    side: u16,
    left: &str,
    right: &str,
) -> Result<String, AllocError>
    requires { side ≤ 600 }
    ensures { IfOk result (λ text. string_bytes text ≡ caption side left.now right.now) }
{
    let (end, y) = (44 + side, 74 + side);
    format!(in alloc;
        "<g font-family=\"serif\" font-size=\"28\" fill=\"#23251f\"><text x=\"44\" y=\"{y}\">{left}</text><text x=\"{end}\" y=\"{y}\" text-anchor=\"end\">{right}</text></g>\n"
    )
}
