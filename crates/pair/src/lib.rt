// Two ends, two queues, one clock: what is promised of them is in specs/, and there is no code here.
#![tactic(auto)]
