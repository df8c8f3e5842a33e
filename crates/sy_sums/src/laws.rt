// Laws of the form.

ghost use Rattle.sy_sums.specs.Laws.{AllIsPrinted};

/// Where a source is of the form, all that main prints are sums, and none is passed over. The contract is the law, and the
/// body is empty.
pub fn all_is_printed()
    ensures { AllIsPrinted }
{}
