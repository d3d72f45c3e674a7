//! What follows from the definitions of configurations and faults, for every text.
ghost use Rattle.std.specs.Prelude.{◌≡◌, ◌≢◌, ◌≤◌, ℕ, List, length};
ghost use Rattle.settings.specs.Fault.{number_of};
ghost use Rattle.settings.specs.Settings.{Settings};
ghost use Rattle.config.specs.Plans.{ArePlans, IsPlansFaultOf, PlansValue};
ghost use Rattle.config.specs.Valid.{IsConfig, IsFaultOf};
ghost use Rattle.settings.specs.declared.fault.ConfigFault.{ConfigFault};
ghost use Rattle.settings.specs.declared.fault.ConfigFault.TheVariants.{Memory};

/// A text is at most one configuration.
pub fn one_configuration()
    ensures { (text : List ℕ) (a b : Settings) → IsConfig text a → IsConfig text b → a ≡ b }
{}

/// A configuration has no fault other than out of memory.
pub fn no_fault()
    ensures { (text : List ℕ) (settings : Settings) (fault : ConfigFault) → IsConfig text settings → fault ≢ Memory
        → ¬ IsFaultOf text fault }
{}

/// All faults of a text, other than out of memory, have the same number.
pub fn one_number()
    ensures { (text : List ℕ) (f g : ConfigFault) → f ≢ Memory → g ≢ Memory → IsFaultOf text f → IsFaultOf text g
        → number_of f ≡ number_of g }
{}

/// Texts are the plans of at most one value.
pub fn one_value_of_plans()
    ensures { (texts : List (List ℕ)) (a b : PlansValue) → 1 ≤ length texts → ArePlans texts a → ArePlans texts b → a ≡ b }
{}

/// Plans have no fault other than out of memory.
pub fn no_fault_of_plans()
    ensures { (texts : List (List ℕ)) (plans : PlansValue) (fault : ConfigFault) → 1 ≤ length texts
        → ArePlans texts plans → fault ≢ Memory → ¬ IsPlansFaultOf texts fault }
{}
