//! The bands of a day from exact fractions, each rounded down once, at the end.
ghost use Rattle.std.specs.Prelude.{◌≡◌, ◌≤◌};
ghost use Rattle.rules.specs.Bands.{figures_of};
ghost use Rattle.rules.specs.Exact.{exactly};

use crate::bands::Bands;
use crate::temperature::TemperatureShare;
use crate::tolerances::Tolerances;

impl Bands {
    /// The bands of a day, from its tolerances, its temperature share and the talon in percent.
    #[tactic(auto, using(crate::proofs::Bounds::bounds))]
    pub fn exact(tolerances: Tolerances, share: TemperatureShare, talon: u8) -> Bands
        requires part { talon ≤ 100 }
        ensures { figures_of result ≡ exactly tolerances.standard tolerances.optional share.part share.whole talon }
    {
        let Tolerances { standard, optional } = tolerances;
        let d = u64::from(share.whole);
        let n = u64::from(share.part);
        let over = 100260 * d;
        let lower = 100 * (standard * d + optional * (d - n));
        let upper = 100 * (standard * d + optional * (d + n));
        let unit = (standard + optional) * d * u64::from(talon);
        let inner = unit.min(lower);
        Bands {
            lower_allowed: (lower / over) as u32,
            lower_cumulable: (inner / over) as u32,
            upper_cumulable: ((2 * unit - inner) / over) as u32,
            upper_allowed: (upper / over) as u32,
            carry_limit: (5 * unit / over) as u32,
        }
    }
}
