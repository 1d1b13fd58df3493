// What a program says of itself, and of an input that is not what it takes.
ghost use Rattle.std.specs.Prelude.{◌≡◌, IfOk, map, string_bytes};
ghost use Rattle.arguments.specs.Help.{asks_help};
ghost use Rattle.arguments.specs.Texts.{is_text};

use anyhow::Result;

// Whether a program is asked how it is used, by the words that it was started with; where it is, it says so.
pub fn help_given(rt: &HostRuntime, words: &[String], usage: &str) -> Result<bool>
    ensures { IfOk result (λ asked. asked ≡ asks_help (map string_bytes words.now)) }
{
    let asked = match words {
        [_, word] => word.as_str() == "--help",
        _ => false,
    };
    if asked {
        println!(rt; "usage: {usage}")?;
    }
    Ok(asked)
}

// Whether an input is a text: it has a byte, and none that is 0. Every job and every book has bytes that must be 0.
pub fn is_text(input: &[u8]) -> bool
    ensures { result ≡ is_text input.now }
{
    !input.is_empty() && !input.contains(&0)
}

// Whether an input is a text; where it is, a line on standard error says so, beside what is answered to it.
pub fn remark_text(rt: &HostRuntime, program: &str, input: &[u8]) -> bool
    ensures { result ≡ is_text input.now }
{
    let found = is_text(input);
    if found {
        let _ = eprintln!(rt;
            "{program}: this is a text: `./jelmorand {program} FILE` reads texts"
        );
    }
    found
}
