/// What makes another script of one, for contracts alone: it tells of the same queue and the same backends, and keeps the
/// ranges and limits of scripts.
pub trait Retold {
    ghost use Rattle.std.specs.Prelude.{◌≡◌};
    ghost use Rattle.base_types.specs.Scenario.{Scenario, IsScript};

    /// The script that it makes of one.
    ghost retold: { Self → Scenario → Scenario };

    ghost backends: { (by : Self) (scenario : Scenario) → (retold by scenario).backends ≡ scenario.backends };

    ghost size: { (by : Self) (scenario : Scenario) → (retold by scenario).size ≡ scenario.size };

    ghost from: { (by : Self) (scenario : Scenario) → (retold by scenario).from ≡ scenario.from };

    ghost is_script: { (by : Self) (scenario : Scenario) → IsScript scenario → IsScript (retold by scenario) };
}
