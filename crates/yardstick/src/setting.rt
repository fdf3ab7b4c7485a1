ghost use Rattle.std.specs.Prelude.{◌≡◌, IfOk};
ghost use Rattle.script.specs.Rules.{IsHeader};
ghost use Rattle.yardstick.specs.Setting.{setting_from};

use script::Header;
use std::marker::Model;
use umem_base::NoMemory;

/// What is fixed for a history: the header of its script, which keeps the rules, and whether guards are on. Contracts
/// see it as the setting that histories are given their meaning by.
#[derive(Drop)]
pub struct Setting {
    header: Header,
    guards: bool,
}

impl Model for Setting {
    ghost use Rattle.script.specs.Rules.{IsHeader};
    ghost use Rattle.plain_heap.specs.Setting.{Setting};
    ghost use Rattle.yardstick.specs.Codes.{setting_code};

    ghost Value = { Setting };

    ghost coded = { setting_code };

    ghost view = { λ s. record { header = s.header; guards = s.guards } };

    ghost invariant = { λ s. IsHeader s.header };
}

impl Setting {
    pub fn new(header: &Header, guards: bool) -> Result<Setting, NoMemory>
        requires { IsHeader header.now }
        ensures { IfOk result (λ setting. setting ≡ setting_from header.now guards) }
    {
        Ok(Setting {
            header: header.clone()?,
            guards,
        })
    }

    pub fn header(&self) -> &Header
        ensures value { result.now ≡ self.now.header }
        ensures rules { IsHeader result.now }
    {
        &self.header
    }

    /// The header keeps the rules, for the proofs of callers that look no further into it.
    pub fn settled(&self)
        ensures { IsHeader self.now.header }
    {
        let _ = &self.header;
    }

    pub fn guards(&self) -> bool
        ensures { result ≡ self.now.guards }
    {
        self.guards
    }
}
