// Claims by one seat, and by two threads.
ghost use Rattle.std.specs.Prelude.{◌≡◌, ◌+◌, ◌≤◌};
ghost use Rattle.md_pool.specs.Claims.{made_by};

use md_pool::{ClaimSeat, Claims};
use std::test::Fail;
use std::thread::join;

#[test]
fn two_numbers_answer_two_of_three_claims(rt: HostRuntime) -> Result<(), Fail> {
    let (claims, mut seat) = Claims::new(rt.alloc(), 2)?;
    assert_eq!(rt; claims.claim(&mut seat), Some(0));
    assert_eq!(rt; claims.claim(&mut seat), Some(1));
    assert_eq!(rt; claims.claim(&mut seat), None);
    assert_eq!(rt; seat.made(), 3);
    assert_eq!(rt; seat.share(), u64::MAX);
    Ok(())
}

// How many of three claims were answered.
fn answered(claims: &Claims, seat: &mut ClaimSeat) -> u32
    requires seat { seat.old.id ≡ claims.now.id }
    requires room { made_by seat.old + 3 ≤ seat.old.share }
{
    let first = claims.claim(seat);
    let second = claims.claim(seat);
    let third = claims.claim(seat);
    u32::from(first.is_some()) + u32::from(second.is_some()) + u32::from(third.is_some())
}

#[test]
fn two_threads_draw_four_numbers_by_six_claims(rt: HostRuntime) -> Result<(), Fail> {
    let (claims, mut seat) = Claims::new(rt.alloc(), 4)?;
    let mut other = claims.split(&mut seat, 3)?;
    let (here, there) = join(
        &rt,
        || -> u32
            requires { (seat.id ≡ claims.id) × (made_by seat + 3 ≤ seat.share) }
        { answered(&claims, &mut seat) },
        || -> u32
            requires { (other.id ≡ claims.id) × (made_by other + 3 ≤ other.share) }
        { answered(&claims, &mut other) },
    );
    assert_eq!(rt; here.saturating_add(there), 4);
    Ok(())
}
