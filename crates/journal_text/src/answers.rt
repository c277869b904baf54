//! The texts of what is answered: `cover`, `settled`, `refused`.

ghost use Rattle.std.specs.Prelude.{◌≡◌, ◌++◌, ◌∷◌, [], OnOk, codes};
ghost use Rattle.std.specs.Fmt.{decimal};
ghost use Rattle.addr4.specs.Texts.{addr_text, prefix_text};
ghost use Rattle.journal_text.specs.Texts.{code_text, held_words, match_text, task_text, words_line};

use crate::line::Code;
use crate::link::Task;
use crate::names::push_task;
use crate::texts::push_text;
use addr4::{Addr, Memory, Prefix, Texts, push_addr, push_number, push_prefix};

/// A prefix, or `-` for none.
fn push_match<F: Texts>(out: &mut Vec<u8>, found: Option<Prefix<F>>) -> Result<(), Memory>
    ensures { OnOk result (out.new.items ≡ out.old.items ++ match_text F.V6 found) }
{
    match found {
        Some(prefix) => push_prefix(out, prefix),
        None => push_text(out, b"-"),
    }
}

/// `cover ADDR MATCH SUBNET`
pub(crate) fn push_cover<F: Texts>(
    out: &mut Vec<u8>,
    addr: Addr<F>,
    found: Option<Prefix<F>>,
    subnet: Prefix<F>,
) -> Result<(), Memory>
    ensures { OnOk result (out.new.items ≡ out.old.items ++ words_line (codes "cover" ∷ addr_text F.V6 addr ∷ match_text F.V6 found ∷ prefix_text F.V6 subnet ∷ [])) }
{
    push_text(out, b"cover ")?;
    push_addr(out, addr)?;
    out.push(b' ')?;
    push_match(out, found)?;
    out.push(b' ')?;
    push_prefix(out, subnet)?;
    out.push(b'\n')?;
    Ok(())
}

/// ` no TASK`, and LF.
fn push_held<F: Texts>(out: &mut Vec<u8>, task: Task) -> Result<(), Memory>
    ensures { OnOk result (out.new.items ≡ out.old.items ++ (codes " no " ++ task_text F.V6 task ++ 10 ∷ [])) }
{
    push_text(out, b" no ")?;
    push_task::<F>(out, task)?;
    out.push(b'\n')?;
    Ok(())
}

/// `settled PREFIX yes`, `settled PREFIX no TASK`
pub(crate) fn push_settled<F: Texts>(
    out: &mut Vec<u8>,
    prefix: Prefix<F>,
    held: Option<Task>,
) -> Result<(), Memory>
    ensures { OnOk result (out.new.items ≡ out.old.items ++ words_line (codes "settled" ∷ prefix_text F.V6 prefix ∷ held_words F.V6 held)) }
{
    push_text(out, b"settled ")?;
    push_prefix(out, prefix)?;
    match held {
        None => push_text(out, b" yes\n"),
        Some(task) => push_held::<F>(out, task),
    }
}

/// The word of a code.
fn code_word(code: Code) -> &'static [u8]
    ensures { result.now ≡ code_text code }
{
    match code {
        Code::E1 => b"E1",
        Code::E2 => b"E2",
        Code::E3 => b"E3",
        Code::E4 => b"E4",
        Code::E5 => b"E5",
        Code::E6 => b"E6",
        Code::E7 => b"E7",
        Code::E8 => b"E8",
        Code::E9 => b"E9",
    }
}

/// `refused LINE CODE`
pub(crate) fn push_refused(out: &mut Vec<u8>, number: u64, code: Code) -> Result<(), Memory>
    ensures { OnOk result (out.new.items ≡ out.old.items ++ words_line (codes "refused" ∷ decimal number ∷ code_text code ∷ [])) }
{
    push_text(out, b"refused ")?;
    push_number(out, number)?;
    out.push(b' ')?;
    push_text(out, code_word(code))?;
    out.push(b'\n')?;
    Ok(())
}
