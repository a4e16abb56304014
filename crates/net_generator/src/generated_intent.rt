//! The intent over a generated network.

ghost use Rattle.std.specs.Prelude.{◌≡◌, ◌++◌, ◌≤◌, IfOk, OnErr, OnOk, string_bytes};
ghost use Rattle.net_generator.specs.declared.size.TheConstants.{MAX_NODES};
ghost use Rattle.net_generator.specs.Intents.{function_table, intent_text, root_keys, step_table, step_tables};

use crate::size::Size;
use base::NoMemory;
use std::alloc::{AllocError, Global};

/// The keys in front of the steps, and an empty line.
const ROOT_KEYS: &str = "headend = \"n0\"
source = \"2001:db8::1\"
inner = \"ipv6\"
mode = \"reduced\"
hop_limit = 255
max_containers = 127

";

/// Appends the keys in front of the steps.
#[tactic(auto, unfolding(crate::specs::Intents::root_keys))]
fn append_root(out: &mut String) -> Result<(), AllocError>
    ensures { OnOk result (string_bytes out.new ≡ string_bytes out.old ++ root_keys) }
{
    out.push_str(ROOT_KEYS)
}

/// Appends the table of step i: the first link alone to each third node, else both.
fn append_step(i: u32, out: &mut String) -> Result<(), AllocError>
    ensures { OnOk result (string_bytes out.new ≡ string_bytes out.old ++ step_table i) }
{
    if i.is_multiple_of(3) {
        write!(out, "[[step]]\nlinks = [\"a{i}\"]\n\n")
    } else {
        write!(out, "[[step]]\nlinks = [\"a{i}\", \"b{i}\"]\n\n")
    }
}

/// Appends the tables of the steps of links.
fn append_steps(n: u32, out: &mut String) -> Result<(), AllocError>
    requires { n ≤ MAX_NODES }
    ensures { OnOk result (string_bytes out.new ≡ string_bytes out.old ++ step_tables n) }
{
    for i in 1..=n {
        append_step(i, out)?;
    }
    Ok(())
}

/// Appends the table of the last step.
#[tactic(auto, unfolding(crate::specs::Intents::function_table))]
fn append_function(out: &mut String) -> Result<(), AllocError>
    ensures { OnOk result (string_bytes out.new ≡ string_bytes out.old ++ function_table) }
{
    out.push_str("[[step]]\nfunction = \"vpn\"\n\n")
}

/// The intent's text.
#[tactic(auto, using(std::proofs::Common::append_assoc))]
fn text_of_intent(alloc: Global, size: Size) -> Result<String, AllocError>
    ensures { IfOk result (λ text. string_bytes text ≡ intent_text size) }
{
    let mut text = String::new(alloc);
    append_root(&mut text)?;
    append_steps(size.get(), &mut text)?;
    append_function(&mut text)?;
    Ok(text)
}

/// Appends the intent over the network of a size, in TOML: from `n0` through each next node, over
/// both links or, to each third node, the first alone, and then the function `vpn`. `NoMemory`
/// leaves the bytes as they were.
pub fn write_intent(alloc: Global, size: Size, out: &mut Vec<u8>) -> Result<(), NoMemory>
    ensures ok { OnOk result (out.new.items ≡ out.old.items ++ intent_text size) }
    ensures err { OnErr result (out.new.items ≡ out.old.items) }
{
    let text = text_of_intent(alloc, size)?;
    out.extend_from_slice(text.as_bytes())?;
    Ok(())
}
