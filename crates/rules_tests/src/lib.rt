//! Examples of the calendar and the rules: Februaries, the edges of the brackets, forecasts around the
//! threshold and the limit.
#![tactic(auto)]

#[cfg(test)]
mod tests {
    use kinds::{Date, Month, Refusal};
    use rules::bands::parts::BandFigures;
    use rules::monthly::Monthly;
    use rules::{Bands, Rule};
    use std::alloc::Global;
    use terms::schedule::{Terms, schedule};
    use terms::{Perimeter, RuleError};

    fn february(year: u16) -> Month {
        Month { year, month: 2 }
    }

    fn on(year: u16, month: u8, day: u8) -> Date {
        Date { year, month, day }
    }

    #[test]
    fn februaries(rt: HostRuntime) {
        assert_eq!(rt; february(2000).days(), 29);
        assert_eq!(rt; february(2012).days(), 29);
        assert_eq!(rt; february(2013).days(), 28);
        assert_eq!(rt; february(2096).days(), 29);
        assert_eq!(rt; february(2100).days(), 28);
        assert_eq!(rt; on(2012, 2, 28).next(), Some(on(2012, 2, 29)));
        assert_eq!(rt; on(2013, 2, 28).next(), Some(on(2013, 3, 1)));
        assert_eq!(rt; on(2096, 2, 29).next(), Some(on(2096, 3, 1)));
        assert_eq!(rt; on(2013, 2, 29).next(), None);
        assert_eq!(rt; on(2099, 12, 31).next(), Some(on(2100, 1, 1)));
    }

    #[test]
    fn edges_of_north_b(rt: HostRuntime) {
        let told = |base| Perimeter::NorthB.tolerance(base);
        assert_eq!(rt; told(0), Ok((0, 1)));
        assert_eq!(rt; told(500_000), Ok((150_000_000, 1)));
        assert_eq!(rt; told(500_001), Ok((150_000_200, 2)));
        assert_eq!(rt; told(1_000_000), Ok((250_000_000, 2)));
        assert_eq!(rt; told(1_000_001), Ok((250_000_050, 3)));
        assert_eq!(rt; told(2_000_000), Ok((300_000_000, 3)));
        assert_eq!(rt; told(2_000_001), Ok((300_000_050, 4)));
        assert_eq!(rt; told(50_000_000), Ok((2_700_000_000, 4)));
        assert_eq!(rt; told(50_000_001), Ok((2_700_000_050, 5)));
        assert_eq!(rt; told(100_000_000), Ok((5_200_000_000, 5)));
        assert_eq!(rt; told(100_000_001), Err(Refusal::TermOutOfRange));
    }

    #[test]
    fn edges_of_north_h(rt: HostRuntime) {
        let told = |base| Perimeter::NorthH.tolerance(base);
        assert_eq!(rt; told(500_000), Ok((150_000_000, 1)));
        assert_eq!(rt; told(500_001), Ok((150_000_200, 2)));
        assert_eq!(rt; told(1_000_000), Ok((250_000_000, 2)));
        assert_eq!(rt; told(1_000_001), Ok((250_000_200, 3)));
        assert_eq!(rt; told(2_000_000), Ok((450_000_000, 3)));
        assert_eq!(rt; told(2_000_001), Ok((450_000_050, 4)));
        assert_eq!(rt; told(50_000_000), Ok((2_850_000_000, 4)));
        assert_eq!(rt; told(50_000_001), Ok((2_850_000_045, 5)));
        assert_eq!(rt; told(100_000_000), Ok((5_100_000_000, 5)));
    }

    #[test]
    fn edges_of_the_south(rt: HostRuntime) {
        let told = |base| Perimeter::South.tolerance(base);
        assert_eq!(rt; told(500_000), Ok((150_000_000, 1)));
        assert_eq!(rt; told(1_000_001), Ok((250_000_200, 3)));
        assert_eq!(rt; told(2_000_000), Ok((450_000_000, 3)));
        assert_eq!(rt; told(2_000_001), Ok((450_000_055, 4)));
        assert_eq!(rt; told(50_000_000), Ok((3_090_000_000, 4)));
        assert_eq!(rt; told(50_000_001), Ok((3_090_000_050, 5)));
        assert_eq!(rt; told(100_000_000), Ok((5_590_000_000, 5)));
    }

    // A base of 500,000 in North H with an optional tolerance of 2 percent: 150,000 and 10,000 kWh. The
    // threshold is 10 degrees, the limit 0, the talon 50 percent.
    fn terms(month: Month) -> Terms {
        Terms {
            month,
            perimeter: Perimeter::NorthH,
            base: 500_000,
            optional: 20,
            threshold: 100,
            limit: 0,
            talon: 50,
        }
    }

    // The schedule of February 2013, with one forecast for every day.
    fn february_at(heap: Global, forecast: Option<i16>) -> Result<Monthly<Bands>, RuleError> {
        schedule(heap, terms(february(2013)), &[forecast; 28])
    }

    // The allowed figures of a day below and above zero; the others are the same for every forecast.
    fn bands(lower_allowed: u32, upper_allowed: u32) -> Option<BandFigures> {
        Some(BandFigures {
            lower_allowed,
            lower_cumulable: 79_792,
            upper_cumulable: 79_792,
            upper_allowed,
            carry_limit: 398_962,
        })
    }

    // What a rule has on the last of February 2013.
    fn last_day(rule: Result<Monthly<Bands>, RuleError>) -> Option<BandFigures> {
        let mut rule = rule.ok()?;
        Some(BandFigures::from(rule.ask(on(2013, 2, 28))?))
    }

    #[test]
    fn forecasts_around_the_threshold(rt: HostRuntime) {
        let heap = rt.alloc();
        assert_eq!(rt;
            last_day(february_at(heap, Some(600))),
            bands(159_585, 159_585)
        );
        assert_eq!(rt;
            last_day(february_at(heap, Some(101))),
            bands(159_585, 159_585)
        );
        assert_eq!(rt;
            last_day(february_at(heap, Some(100))),
            bands(159_585, 159_585)
        );
        assert_eq!(rt;
            last_day(february_at(heap, Some(99))),
            bands(159_485, 159_684)
        );
        assert_eq!(rt;
            last_day(february_at(heap, Some(50))),
            bands(154_598, 164_572)
        );
    }

    #[test]
    fn forecasts_around_the_limit(rt: HostRuntime) {
        let heap = rt.alloc();
        assert_eq!(rt;
            last_day(february_at(heap, Some(1))),
            bands(149_710, 169_459)
        );
        assert_eq!(rt;
            last_day(february_at(heap, Some(0))),
            bands(149_611, 169_559)
        );
        assert_eq!(rt;
            last_day(february_at(heap, Some(-1))),
            bands(149_611, 169_559)
        );
        assert_eq!(rt;
            last_day(february_at(heap, Some(-600))),
            bands(149_611, 169_559)
        );
        assert_eq!(rt; last_day(february_at(heap, None)), None);
    }

    #[test]
    fn schedules_refused(rt: HostRuntime) {
        let heap = rt.alloc();
        let warm = [Some(150i16); 29];
        let leap = schedule(heap, terms(february(2012)), &warm);
        assert!(rt; leap.is_ok());
        let long = schedule(heap, terms(february(2013)), &warm).err();
        assert_eq!(rt; long, Some(RuleError::Refused(Refusal::WrongSeries)));
        let late = schedule(heap, terms(february(2100)), &warm).err();
        assert_eq!(rt; late, Some(RuleError::Refused(Refusal::WrongMonth)));
        let cold = february_at(heap, Some(-601)).err();
        assert_eq!(rt; cold, Some(RuleError::Refused(Refusal::TermOutOfRange)));
    }
}
