//! Layers piled on kinds and on one another, run on examples.

#![tactic(auto)]

#[cfg(test)]
mod tests {
    use constellation::Constellation;
    use kinds::psk::Psk;
    use kinds::square::Square;
    use order::Order;
    use refusal::Refusal;
    use rings::{Ratios, Rings};
    use std::process::Abort;
    use std::test::Fail;

    fn psk(points: u32) -> Result<Psk, Fail> {
        let Ok(c) = Psk::new(points) else {
            return Err(Fail::new("no such PSK"));
        };
        Ok(c)
    }

    fn square(points: u32) -> Result<Square, Fail> {
        let Ok(c) = Square::new(points) else {
            return Err(Fail::new("no such square"));
        };
        Ok(c)
    }

    fn refused(rt: &impl Abort, f: Refusal, number: u8) -> Result<(), Fail> {
        assert_eq!(rt; f.cause.number(), number);
        assert_eq!(rt; f.place, 0);
        Ok(())
    }

    #[test]
    fn four_rings_over_square_64_fit(rt: HostRuntime) -> Result<(), Fail> {
        let Ok(c) = Rings::new(square(64)?, 4) else {
            return Err(Fail::new("refused"));
        };
        assert_eq!(rt; c.m(), 8);
        assert_eq!(rt; c.size(), 64);
        // the innermost point of square 64 on the largest ring
        let p = c.point(64);
        assert_eq!(rt; p.x, 229);
        assert_eq!(rt; p.y, 229);
        assert_eq!(rt; p.label, 74);
        Ok(())
    }

    #[test]
    fn four_ratios_over_square_64_do_not(rt: HostRuntime) -> Result<(), Fail> {
        match Ratios::new(square(64)?, 4) {
            Ok(_) => Err(Fail::new("made")),
            Err(f) => refused(&rt, f, 7),
        }
    }

    #[test]
    fn three_rings_are_not_listed(rt: HostRuntime) -> Result<(), Fail> {
        match Rings::new(square(256)?, 3) {
            Ok(_) => Err(Fail::new("made")),
            Err(f) => refused(&rt, f, 6),
        }
    }

    fn disordered(rt: &impl Abort, list: &[u8]) -> Result<(), Fail> {
        match Order::new(psk(8)?, list) {
            Ok(_) => Err(Fail::new("made")),
            Err(f) => refused(rt, f, 8),
        }
    }

    #[test]
    fn what_is_no_order(rt: HostRuntime) -> Result<(), Fail> {
        disordered(&rt, &[1, 2, 2])?;
        disordered(&rt, &[1, 3])?;
        disordered(&rt, &[3, 1, 2, 4])?;
        disordered(&rt, &[0, 1, 2])
    }

    #[test]
    fn an_order_over_rings_over_psk(rt: HostRuntime) -> Result<(), Fail> {
        let Ok(r) = Rings::new(psk(8)?, 2) else {
            return Err(Fail::new("refused"));
        };
        let Ok(c) = Order::new(r, &[4, 1, 2, 3]) else {
            return Err(Fail::new("refused"));
        };
        assert_eq!(rt; c.m(), 4);
        assert_eq!(rt; c.u(), 2);
        assert_eq!(rt; c.v(), 3);
        assert_eq!(rt; c.size(), 4);
        let p = c.point(0);
        assert_eq!(rt; p.x, 599);
        assert_eq!(rt; p.y, 248);
        assert_eq!(rt; p.label, 0);
        let q = c.point(9);
        assert_eq!(rt; q.x, 496);
        assert_eq!(rt; q.y, 1196);
        assert_eq!(rt; q.e, 1048576);
        assert_eq!(rt; q.label, 9);
        Ok(())
    }

    #[test]
    fn two_ratios_over_psk(rt: HostRuntime) -> Result<(), Fail> {
        let Ok(c) = Ratios::new(psk(8)?, 2) else {
            return Err(Fail::new("refused"));
        };
        assert_eq!(rt; c.m(), 4);
        assert_eq!(rt; c.size(), 6);
        let p = c.point(1);
        assert_eq!(rt; p.x, 473);
        assert_eq!(rt; p.e, 1310720);
        assert_eq!(rt; p.label, 1);
        let q = c.point(6);
        assert_eq!(rt; q.y, 1892);
        assert_eq!(rt; q.e, 5242880);
        assert_eq!(rt; q.label, 3);
        Ok(())
    }
}
