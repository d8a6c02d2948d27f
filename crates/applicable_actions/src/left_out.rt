//! Actions that an index leaves out.

ghost use Rattle.std.specs.Prelude.{◌≡◌};
ghost use Rattle.applicable_actions.specs.LeftOut.{is_left_out};

/// Whether the action with a code is left out. Codes behind the list are not.
pub(crate) fn is_left_out(left_out: &[bool], code: usize) -> bool
    ensures { result ≡ is_left_out left_out.now code }
{
    left_out.get(code).copied().unwrap_or(false)
}

/// How many of so many actions are not left out. It is less where codes behind them are marked.
pub(crate) fn kept_count(left_out: &[bool], actions: usize) -> usize {
    let mut count: usize = 0;
    for is_out in left_out {
        count += usize::from(*is_out);
    }
    actions.saturating_sub(count)
}
