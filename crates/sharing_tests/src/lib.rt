//! Examples of sharing: halves, the ends of the lists, and each limit at its edge and one past it.
#![tactic(auto)]

#[cfg(test)]
mod tests {
    use kinds::{Cents, Energy, Kind, Metered, Refusal};
    use sharing::{CarriedClaim, EnergyClaim, Fraction, MeteredClaim, Stake, share, share_amount};

    // A claim of this number, which holds 7.
    fn claim<V: Kind, S: Kind>(number: i64) -> Stake<V, S> {
        Stake {
            value: V::of(number),
            share: S::of(7),
        }
    }

    // The kinds are named here too, so that a claim of other kinds is refused.
    fn energy(kwh: i64) -> EnergyClaim {
        claim::<Energy, Energy>(kwh)
    }

    fn carried(kwh: i64) -> CarriedClaim {
        claim::<Energy, Cents>(kwh)
    }

    // The total, or the number of the refusal: by it the outside knows a refusal.
    fn told<T>(answer: Result<T, Refusal>) -> Result<T, u8> {
        answer.map_err(|refusal| refusal.number())
    }

    // What a single claim is told at a fraction.
    fn alone(kwh: i64, p: u64, q: u64) -> Result<i64, u8> {
        let mut claims = [energy(kwh)];
        told(share(&mut claims, Fraction { p, q }))
    }

    #[test]
    fn halves_below_zero_go_up(rt: HostRuntime) {
        let mut claims = [energy(-1), energy(-1), energy(-1)];
        assert_eq!(rt; told(share(&mut claims, Fraction { p: 1, q: 2 })), Ok(-1));
        assert_eq!(rt; claims[0].share.0, 0);
        assert_eq!(rt; claims[1].share.0, 0);
        assert_eq!(rt; claims[2].share.0, -1);
    }

    #[test]
    fn a_reading_takes_its_position(rt: HostRuntime) {
        let mut claims = [MeteredClaim {
            value: Metered(193),
            share: Energy(0),
        }];
        assert_eq!(rt;
            told(share(
                &mut claims,
                Fraction {
                    p: 10_000,
                    q: 10_026
                }
            )),
            Ok(192)
        );
        assert_eq!(rt; claims[0].share.0, 192);
        assert_eq!(rt; claims[0].value.0, 193);
    }

    #[test]
    fn no_claims(rt: HostRuntime) {
        let mut none: [EnergyClaim; 0] = [];
        assert_eq!(rt; told(share(&mut none, Fraction { p: 1, q: 2 })), Ok(0));
        assert_eq!(rt; told(share_amount(&mut none, 0)), Ok(()));
        assert_eq!(rt; told(share_amount(&mut none, 1)), Err(12));
    }

    #[test]
    fn forty_claims_and_no_more(rt: HostRuntime) {
        let mut most = [energy(1); 40];
        let mut more = [energy(1); 41];
        assert_eq!(rt; told(share(&mut most, Fraction { p: 1, q: 1 })), Ok(40));
        assert_eq!(rt; told(share(&mut more, Fraction { p: 1, q: 1 })), Err(12));
        assert_eq!(rt; more[40].share.0, 7);
        assert_eq!(rt; told(share_amount(&mut more, 1)), Err(12));
    }

    #[test]
    fn a_claim_at_its_limit(rt: HostRuntime) {
        assert_eq!(rt; alone(10_000_000_000, 1, 1), Ok(10_000_000_000));
        assert_eq!(rt; alone(-10_000_000_000, 1, 1), Ok(-10_000_000_000));
        assert_eq!(rt; alone(10_000_000_001, 1, 1), Err(12));
        assert_eq!(rt; alone(-10_000_000_001, 1, 1), Err(12));
        assert_eq!(rt; alone(i64::MIN, 0, 1), Err(12));
    }

    #[test]
    fn a_fraction_at_its_limits(rt: HostRuntime) {
        assert_eq!(rt; alone(1, 20_000_000_000, 1), Ok(20_000_000_000));
        assert_eq!(rt; alone(1, 20_000_000_001, 1), Err(12));
        assert_eq!(rt; alone(1, 1, 0), Err(12));
        assert_eq!(rt; alone(1, 1, 1_000_000_000_000), Ok(0));
        assert_eq!(rt; alone(1, 1, 1_000_000_000_001), Err(12));
    }

    #[test]
    fn a_product_at_its_limit(rt: HostRuntime) {
        assert_eq!(rt;
            alone(-450_000_000, 20_000_000_000, 1),
            Ok(-9_000_000_000_000_000_000)
        );
        assert_eq!(rt; alone(-450_000_001, 20_000_000_000, 1), Err(12));
        let mut claims = [carried(10_000_000_000), carried(1)];
        assert_eq!(rt; told(share_amount(&mut claims, 900_000_000)), Err(12));
        assert_eq!(rt; claims[0].share.0, 7);
    }

    #[test]
    fn an_amount_below_zero(rt: HostRuntime) {
        let mut claims = [carried(1), carried(0), carried(-1), carried(1)];
        assert_eq!(rt; told(share_amount(&mut claims, -4)), Ok(()));
        assert_eq!(rt; claims[0].share.0, -2);
        assert_eq!(rt; claims[1].share.0, 0);
        assert_eq!(rt; claims[2].share.0, -1);
        assert_eq!(rt; claims[3].share.0, -1);
    }

    #[test]
    fn an_amount_at_its_limit(rt: HostRuntime) {
        let mut claims = [carried(1), carried(1)];
        assert_eq!(rt; told(share_amount(&mut claims, 20_000_000_001)), Err(12));
        assert_eq!(rt; claims[1].share.0, 7);
        assert_eq!(rt; told(share_amount(&mut claims, -20_000_000_000)), Ok(()));
        assert_eq!(rt; claims[1].share.0, -10_000_000_000);
    }

    #[test]
    fn weights_all_nil(rt: HostRuntime) {
        let mut claims = [carried(0), carried(0)];
        assert_eq!(rt; told(share_amount(&mut claims, -1)), Err(12));
        assert_eq!(rt; claims[0].share.0, 7);
        assert_eq!(rt; told(share_amount(&mut claims, 0)), Ok(()));
        assert_eq!(rt; claims[0].share.0, 0);
    }
}
