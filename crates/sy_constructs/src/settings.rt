//! In what a place stands.

ghost use Rattle.std.specs.Prelude.{◌≡◌};
ghost use Rattle.sy_rules.specs.Foreign.{is_group, is_host, is_kernel};

use sy_rules::Within;

pub fn is_group(within: Within) -> bool
    ensures { result ≡ is_group within }
{
    matches!(within, Within::Group)
}

pub fn is_kernel(within: Within) -> bool
    ensures { result ≡ is_kernel within }
{
    matches!(within, Within::Kernel)
}

pub fn is_host(within: Within) -> bool
    ensures { result ≡ is_host within }
{
    matches!(within, Within::Host)
}
