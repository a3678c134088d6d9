//! Claims: two seats in one thread.
use df_claims::Claims;
use std::test::Fail;

#[test]
fn two_seats_draw_each_number_once(rt: HostRuntime) -> Result<(), Fail> {
    let (claims, mut seats) = Claims::new(rt.alloc(), 3, 2)?;
    let mut zeroth = seats.pop().ok_or("a seat")?;
    let mut first = seats.pop().ok_or("a second seat")?;
    assert!(rt; claims.next(&mut zeroth) == Some(0));
    assert!(rt; claims.next(&mut first) == Some(1));
    assert!(rt; claims.next(&mut first) == Some(2));
    assert!(rt; claims.next(&mut zeroth) == None);
    assert!(rt; claims.next(&mut first) == None);
    assert!(rt; claims.next(&mut zeroth) == None);
    Ok(())
}
