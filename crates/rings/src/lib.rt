// Places in a ring: number e stands at place e mod m. The engine's epochs live so, and later the dispatcher's queues. Laws only.
#![tactic(auto)]
