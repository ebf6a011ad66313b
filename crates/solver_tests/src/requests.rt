//! The word by which a stop is asked for, and by which it is heard.
use stops::Requests;

#[test]
fn a_stop_is_heard_until_it_may_go_on(rt: HostRuntime) {
    let Ok((requests, mut asker, mut listener)) = Requests::make(rt.alloc()) else {
        panic!(rt; "no word")
    };
    assert!(rt; !requests.is_stopped(&mut listener));
    requests.stop(&mut asker);
    assert!(rt; requests.is_stopped(&mut listener));
    assert!(rt; requests.is_stopped(&mut asker));
    // asked for once more it is the same stop
    requests.stop(&mut asker);
    assert!(rt; requests.is_stopped(&mut listener));
    requests.go_on(&mut asker);
    assert!(rt; !requests.is_stopped(&mut listener));
    requests.go_on(&mut asker);
    assert!(rt; !requests.is_stopped(&mut listener));
    assert!(rt; !requests.is_stopped(&mut asker));
    requests.stop(&mut asker);
    assert!(rt; requests.is_stopped(&mut listener));
}
