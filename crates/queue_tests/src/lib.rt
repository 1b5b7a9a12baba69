// Tests of the queue.
#![tactic(auto)]

#[cfg(test)]
mod tests {
    use queue::Queue;

    #[test]
    fn first_in_first_out(rt: HostRuntime) {
        let mut slots = [0u32; 3];
        let mut q = Queue::new(&mut slots);
        assert_eq!(rt; q.push(7).ok(), Some(0));
        assert_eq!(rt; q.push(9).ok(), Some(1));
        assert_eq!(rt; q.next(), Some((0, 7)));
        assert_eq!(rt; q.push(8).ok(), Some(2));
        assert_eq!(rt; q.next(), Some((1, 9)));
        assert_eq!(rt; q.next(), Some((2, 8)));
        assert_eq!(rt; q.next(), None);
    }

    #[test]
    fn refuses_when_full(rt: HostRuntime) {
        let mut slots = [0u32; 1];
        let mut q = Queue::new(&mut slots);
        assert_eq!(rt; q.push(7).is_ok(), true);
        assert_eq!(rt; q.push(9).is_ok(), false);
        assert_eq!(rt; q.next(), Some((0, 7)));
        assert_eq!(rt; q.push(9).is_ok(), false);
        assert_eq!(rt; q.next(), None);
    }

    #[test]
    fn taken_entries_stay(rt: HostRuntime) {
        let mut slots = [0u32; 4];
        let mut q = Queue::new(&mut slots);
        assert_eq!(rt; q.push(7).is_ok(), true);
        assert_eq!(rt; q.push(9).is_ok(), true);
        assert_eq!(rt; q.next(), Some((0, 7)));
        assert_eq!(rt; q.get(0), Some(7));
        assert_eq!(rt; q.get(1), Some(9));
        assert_eq!(rt; q.get(2), None);
        assert_eq!(rt; q.made(), 2);
        assert_eq!(rt; q.len(), 1);
        assert_eq!(rt; q.entries().len(), 2);
    }
}
