//! What is lent of reflection, as it is and as this speaker reflects it (RFC 4456, section 8).

ghost use Rattle.std.specs.Prelude.{◌≡◌, [], None};
ghost use Rattle.bgp_attr.specs.Reflections.{reflected_by};

use crate::lent::LentReflection;
use crate::reflection::Reflection;
use addr4::RouterId;

impl<'a> LentReflection<'a> {
    /// Nothing was added.
    pub fn none() -> LentReflection<'a>
        ensures { result ≡ record { originator = None; clusters = [] } }
    {
        LentReflection {
            originator: None,
            front: None,
            others: &[],
        }
    }
}

impl Reflection {
    /// What was added, lent.
    pub fn lent(&self) -> LentReflection<'_>
        ensures { result ≡ self.now }
    {
        LentReflection {
            originator: self.originator(),
            front: None,
            others: self.clusters(),
        }
    }

    /// The same once more reflected ([`Reflection::reflected`]), lent.
    pub fn lent_reflected(&self, sender: RouterId, cluster: RouterId) -> LentReflection<'_>
        ensures { result ≡ reflected_by sender cluster self.now }
    {
        LentReflection {
            originator: Some(self.originator().unwrap_or(sender)),
            front: Some(cluster),
            others: self.clusters(),
        }
    }
}
