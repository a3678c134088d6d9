#![tactic(auto)]

use dataframes::{CellType, Dashboard, FinishFault, Load, Service, ServiceBuilder, Tell, Watch};

#[derive(Drop)]
struct Loader;

impl Load for Loader {
    fn load<S: Service>(&mut self, service: &S) {
        let _ = service.append_csv(0, b"n\n3\n");
    }
}

#[derive(Drop)]
struct Watcher(u64);

impl Watch for Watcher {
    fn look<S: Tell>(&mut self, _service: &S, dashboard: &mut Dashboard<S::History>) {
        self.0 = dashboard
            .newest()
            .and_then(|version| version.frame_len(0))
            .unwrap_or(0);
    }
}

fn main(rt: HostRuntime) -> Result<(), FinishFault> {
    let loaders = vec![in rt.alloc(); Loader, Loader]?;
    let watchers = vec![in rt.alloc(); Watcher(0)]?;
    let service = ServiceBuilder::new(rt.alloc()).frame(&[("n", CellType::Int)])?;
    for watcher in &service.run(&rt, loaders, watchers)?.watchers {
        let _ = println!(rt; "rows: {}", watcher.0);
    }
    Ok(())
}
