// Options that stand at most once.
ghost use Rattle.std.specs.Prelude.{◌≡◌, true, Some, is_none, not};
ghost use Rattle.std.specs.Option.{option_or};

/// Sets a flag, and answers whether it was not set.
pub(crate) fn set_flag(flag: &mut bool) -> bool
    ensures set { result ≡ not flag.old }
    ensures value { flag.new ≡ true }
{
    if *flag {
        return false;
    }
    *flag = true;
    true
}

/// Sets a slot that holds nothing, and answers whether it held nothing. One that holds a value keeps it.
pub fn set_once<T: Drop>(slot: &mut Option<T>, value: T) -> bool
    ensures set { result ≡ is_none slot.old }
    ensures value { slot.new ≡ option_or slot.old (Some value) }
{
    if slot.is_some() {
        return false;
    }
    *slot = Some(value);
    true
}
